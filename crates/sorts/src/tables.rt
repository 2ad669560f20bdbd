//! How a caller's tables are described.
ghost use Rattle.std.specs.Prelude.{◌≡◌, ℕ, List, map, None};
ghost use Rattle.cells.specs.Answering.{Answers};
ghost use Rattle.cells.specs.Worded.{letters};
ghost use Rattle.model.specs.Values.{same_bytes};
ghost use Rattle.sorts.specs.Describing.{words_fault, all_columns_fault, name_used_fault, room_fault, table_fault, column_words, of_columns};
ghost use Rattle.sorts.specs.Described.{described};
ghost use Rattle.sorts.specs.Offered.{offered_columns};

use crate::description::Description;
use crate::ensuring::ensure;
use crate::offered::NewColumn;
use crate::table::NewTable;
use cells::{Cause, Refusal, Word, is_name};
use std::alloc::Global;

// Whatever has a name among a caller's tables.
pub trait Named {
    ghost name: { Self → List ℕ };

    fn is_named(&self, word: &[u8]) -> bool
        ensures { result ≡ same_bytes (name self.now) word.now };
}

// The words of the columns are names.
fn check_words(columns: &[NewColumn]) -> Result<(), Refusal>
    ensures { Answers (words_fault (column_words (offered_columns columns.now))) (λ _. Unit {0}) result }
{
    let named = columns.iter().all(|column| is_name(column.word));
    ensure(named, Cause::Size)
}

// The name is new, and there are fewer than eight tables.
fn check_name<T: Named>(tables: &[T], word: &[u8]) -> Result<(), Refusal>
    ensures { Answers (name_used_fault (map T.Named.name tables.now) word.now) (λ _. Unit {0}) result }
{
    ensure(tables.len() < 8, Cause::Limit)?;
    let used = tables.iter().any(|table| table.is_named(word));
    ensure(!used, Cause::Repeated)
}

// The columns of a table, whose words are names.
fn describe_columns(heap: Global, columns: &[NewColumn]) -> Result<Description, Refusal>
    requires { words_fault (column_words (offered_columns columns.now)) ≡ None }
    ensures { Answers (all_columns_fault (offered_columns columns.now)) (λ d. described d ≡ of_columns (offered_columns columns.now)) result }
{
    ensure(!columns.is_empty(), Cause::Limit)?;
    let mut sort = Description::new(heap);
    for column in columns {
        sort.add_column(heap, *column)?;
    }
    Ok(sort)
}

// A room is 1 to 128.
fn check_room(room: usize) -> Result<(), Refusal>
    ensures { Answers (room_fault room) (λ _. Unit {0}) result }
{
    ensure((1..=128).contains(&room), Cause::Room)
}

// A table more for a caller who has these.
pub fn describe<T: Named>(
    heap: Global,
    tables: &[T],
    name: &[u8],
    columns: &[NewColumn],
    room: usize,
) -> Result<NewTable, Refusal>
    ensures { Answers (table_fault (map T.Named.name tables.now) name.now (offered_columns columns.now) room) (λ t. (letters t.name ≡ name.now) × (described t.sort ≡ of_columns (offered_columns columns.now)) × (t.room ≡ room)) result }
{
    let word = Word::new(heap, name)?;
    check_words(columns)?;
    check_name(tables, name)?;
    let sort = describe_columns(heap, columns)?;
    check_room(room)?;
    Ok(NewTable {
        name: word,
        sort,
        room,
    })
}
