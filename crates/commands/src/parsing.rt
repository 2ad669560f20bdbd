//! Commands, and lines read as commands.
ghost use Rattle.std.specs.Prelude.{◌≡◌, map, IfOk};
ghost use Rattle.std.specs.Option.{option_map};
ghost use Rattle.cells.specs.Held.{kind_of};
ghost use Rattle.sorts.specs.Offered.{offered_column};
ghost use Rattle.model.specs.Values.{every};
ghost use Rattle.commands.specs.Lines.{is_comment, is_space, texts};
ghost use Rattle.commands.specs.Readings.{ReadsAs};
ghost use Rattle.commands.specs.Forms.{kind_said, storage_said, heading_said, headings_said, table_said, dep_said};
ghost use Rattle.commands.specs.Forms.{is_arrow, verb_of, says, asked, command_of, meaning, meant};

use crate::lists::each;
use crate::numbers::{hex_pair, number};
use crate::tokens::{split_command, words};
use crate::unread::Unread;
use cells::Kind;
use runs::split_run;
use sorts::NewColumn;
use std::alloc::{AllocError, Global};

// Where a table is to be stored: in a number of slots, or in an image of a number of bytes.
#[derive(Clone, Copy)]
pub enum Storage {
    Slots(u32),
    Image(u32),
}

#[derive(Drop)]
pub enum Command<'a> {
    Help,
    Fresh,
    Table {
        name: &'a [u8],
        storage: Storage,
        room: u32,
        columns: Vec<NewColumn<'a>>,
    },
    Column {
        column: NewColumn<'a>,
    },
    Dep {
        left: Vec<&'a [u8]>,
        right: Vec<&'a [u8]>,
    },
    Seal,
    Load {
        name: &'a [u8],
        bytes: Vec<u8>,
    },
    Bank {
        name: &'a [u8],
        size: u32,
    },
    Rows {
        name: &'a [u8],
    },
    Read {
        name: &'a [u8],
        path: &'a [u8],
    },
    Write {
        name: &'a [u8],
        path: &'a [u8],
    },
    Try {
        count: u32,
    },
    Put {
        count: u32,
    },
}

// What a line is: passed over, a command, or neither. (An option in a result would leave the first without a name.)
#[derive(Drop)]
pub enum Line<'a> {
    Skipped,
    Said(Command<'a>),
    Bad,
}

// The verb alone, so that an unknown one is told before any word takes memory.
#[derive(Clone, Copy)]
enum Verb {
    Help,
    Fresh,
    Table,
    Column,
    Dep,
    Seal,
    Load,
    Bank,
    Rows,
    Read,
    Write,
    Try,
    Put,
}

const SIZE_LIMIT: u32 = 65535;

const COUNT_LIMIT: u32 = 999;

fn verb_of(word: &[u8]) -> Option<Verb>
    ensures { result ≡ verb_of word.now }
{
    match word {
        b"help" => Some(Verb::Help),
        b"fresh" => Some(Verb::Fresh),
        b"table" => Some(Verb::Table),
        b"column" => Some(Verb::Column),
        b"dep" => Some(Verb::Dep),
        b"seal" => Some(Verb::Seal),
        b"load" => Some(Verb::Load),
        b"bank" => Some(Verb::Bank),
        b"rows" => Some(Verb::Rows),
        b"read" => Some(Verb::Read),
        b"write" => Some(Verb::Write),
        b"try" => Some(Verb::Try),
        b"put" => Some(Verb::Put),
        _ => None,
    }
}

// No `TryFrom`: it would have to stand in the crate of `Kind`, which knows no lines.
fn kind_named(word: &[u8]) -> Option<Kind>
    ensures { option_map kind_of result ≡ kind_said word.now }
{
    match word {
        b"num" => Some(Kind::Num),
        b"text" => Some(Kind::Text),
        _ => None,
    }
}

fn storage_named(word: &[u8], size: &[u8]) -> Option<Storage>
    ensures { result ≡ storage_said word.now size.now }
{
    let size = number(size, SIZE_LIMIT)?;
    match word {
        b"slot" => Some(Storage::Slots(size)),
        b"image" => Some(Storage::Image(size)),
        _ => None,
    }
}

fn column_named<'a>(word: &'a [u8], kind: &[u8]) -> Option<NewColumn<'a>>
    ensures { option_map offered_column result ≡ heading_said word.now kind.now }
{
    kind_named(kind).map(|kind| NewColumn { word, kind })
}

// Pairs of a word and a kind.
fn columns_named<'a>(heap: Global, words: &[&'a [u8]]) -> Result<Vec<NewColumn<'a>>, Unread>
    ensures { ReadsAs result (λ v. map offered_column v.items) (headings_said (texts words.now)) }
{
    let (pairs, rest) = words.as_chunks::<2>();
    if !rest.is_empty() {
        return Err(Unread::Malformed);
    }
    each(heap, pairs, |&[word, kind]| column_named(word, kind))
}

fn table<'a>(heap: Global, words: &[&'a [u8]]) -> Result<Command<'a>, Unread>
    ensures { ReadsAs result asked (table_said (texts words.now)) }
{
    let &[name, word, size, room, ref columns @ ..] = words else {
        return Err(Unread::Malformed);
    };
    Ok(Command::Table {
        name,
        storage: storage_named(word, size).ok_or(Unread::Malformed)?,
        room: number(room, SIZE_LIMIT).ok_or(Unread::Malformed)?,
        columns: columns_named(heap, columns)?,
    })
}

fn is_arrow(word: &[u8]) -> bool
    ensures { result ≡ is_arrow word.now }
{
    word == b"->".as_slice()
}

fn dependency<'a>(heap: Global, words: &[&'a [u8]]) -> Result<Command<'a>, Unread>
    ensures { ReadsAs result asked (dep_said (texts words.now)) }
{
    let (left, after) = split_run(words, |word| !is_arrow(word));
    let (_, right) = after.split_first().ok_or(Unread::Malformed)?;
    if right.iter().any(|word| is_arrow(word)) {
        return Err(Unread::Malformed);
    }
    let left = Vec::from_slice(heap, left)?;
    let right = Vec::from_slice(heap, right)?;
    Ok(Command::Dep { left, right })
}

fn arguments<'a>(heap: Global, verb: Verb, words: &[&'a [u8]]) -> Result<Command<'a>, Unread>
    ensures { ReadsAs result asked (says verb (texts words.now)) }
{
    match (verb, words) {
        (Verb::Help, &[]) => Ok(Command::Help),
        (Verb::Fresh, &[]) => Ok(Command::Fresh),
        (Verb::Table, _) => table(heap, words),
        (Verb::Column, &[word, kind]) => {
            let column = column_named(word, kind).ok_or(Unread::Malformed)?;
            Ok(Command::Column { column })
        }
        (Verb::Dep, _) => dependency(heap, words),
        (Verb::Seal, &[]) => Ok(Command::Seal),
        (Verb::Load, &[name, ref bytes @ ..]) => {
            let bytes = each(heap, bytes, |word| hex_pair(word))?;
            Ok(Command::Load { name, bytes })
        }
        (Verb::Bank, &[name, size]) => {
            let size = number(size, SIZE_LIMIT).ok_or(Unread::Malformed)?;
            Ok(Command::Bank { name, size })
        }
        (Verb::Rows, &[name]) => Ok(Command::Rows { name }),
        (Verb::Read, &[name, path]) => Ok(Command::Read { name, path }),
        (Verb::Write, &[name, path]) => Ok(Command::Write { name, path }),
        (Verb::Try, &[count]) => {
            let count = number(count, COUNT_LIMIT).ok_or(Unread::Malformed)?;
            Ok(Command::Try { count })
        }
        (Verb::Put, &[count]) => {
            let count = number(count, COUNT_LIMIT).ok_or(Unread::Malformed)?;
            Ok(Command::Put { count })
        }
        _ => Err(Unread::Malformed),
    }
}

fn is_comment(line: &[u8]) -> bool
    ensures { result ≡ is_comment line.now }
{
    matches!(line, [b'#', ..])
}

fn is_blank(line: &[u8]) -> bool
    ensures { result ≡ every is_space line.now }
{
    line.iter().all(|b| *b == b' ')
}

// The command that a line asks for.
fn command_in<'a>(heap: Global, line: &'a [u8]) -> Result<Command<'a>, Unread>
    ensures { ReadsAs result asked (command_of line.now) }
{
    let (word, rest) = split_command(line);
    let verb = verb_of(word).ok_or(Unread::Malformed)?;
    let words = words(heap, rest)?;
    arguments(heap, verb, &words)
}

// What a line asks for.
pub fn parse<'a>(heap: Global, line: &'a [u8]) -> Result<Line<'a>, AllocError>
    ensures { IfOk result (λ l. meant l ≡ meaning line.now) }
{
    if is_comment(line) || is_blank(line) {
        return Ok(Line::Skipped);
    }
    match command_in(heap, line) {
        Ok(command) => Ok(Line::Said(command)),
        Err(Unread::Malformed) => Ok(Line::Bad),
        Err(Unread::Memory(e)) => Err(e),
    }
}
