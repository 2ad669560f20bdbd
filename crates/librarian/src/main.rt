//! The librarian: reads a session script and prints what comes of each line.
#![tactic(auto)]

ghost use Rattle.std.specs.Prelude.{◌≤◌, length, IfOk};

use commands::{Command, Line, parse, split_line};
use outcomes::Outcome;
use session::Session;
use std::alloc::AllocError;
use std::io::{Read, Write};
use std::{env, fs, io};

// A bank has at most 12 bytes before its rows, of which there are at most 128, of 8 texts of 17 bytes.
const LARGEST_BANK: usize = 12 + 128 * 8 * 17;

// The script: the file that the first argument names, or else the standard input.
fn script(rt: &HostRuntime) -> io::Result<Vec<u8>> {
    if let Some(path) = env::args(rt)?.nth(1) {
        return fs::read(rt, path.as_str());
    }
    let mut bytes = Vec::new(rt.alloc());
    rt.stdin().read_to_end(&mut bytes)?;
    Ok(bytes)
}

// What stands behind the next lines.
fn past_lines(text: &[u8], count: u32) -> &[u8]
    ensures { length result.now ≤ length text.now }
{
    let mut rest = text;
    for _ in 0..count {
        rest = split_line(rest).1;
    }
    rest
}

// Prints an outcome in one piece, or tells that its text found no room.
fn print(rt: &HostRuntime, outcome: &Outcome) -> io::Result<()> {
    match outcome.text(rt.alloc()) {
        Ok(text) => rt.stdout().write_all(text.as_bytes()),
        Err(AllocError) => rt.stdout().write_all(b"no memory\n"),
    }
}

// The bytes of a file, if it can be read.
fn read_file(rt: &HostRuntime, path: &[u8]) -> Option<Vec<u8>> {
    let path = std::str::from_utf8(path).ok()?;
    fs::read(rt, path).ok()
}

// Writes a file whole, or leaves an old one as it was: the bytes go to a file beside it, which then takes its name.
fn write_file(rt: &HostRuntime, path: &str, bytes: &[u8]) -> io::Result<()> {
    let part = format!(in rt.alloc(); "{path}.part")?;
    if let Err(error) = fs::write(rt, part.as_str(), bytes) {
        let _ = fs::remove_file(rt, part.as_str());
        return Err(error);
    }
    fs::rename(rt, part.as_str(), path)
}

// Writes a bank to a file, and answers its length.
fn written(rt: &HostRuntime, bank: &[u8], path: &[u8]) -> Option<usize> {
    let path = std::str::from_utf8(path).ok()?;
    write_file(rt, path, bank).ok()?;
    Some(bank.len())
}

fn perform(
    rt: &HostRuntime,
    session: &mut Session,
    command: Command<'_>,
) -> Result<Outcome, AllocError> {
    let heap = rt.alloc();
    match command {
        Command::Read { name, path } => session.read(heap, name, read_file(rt, path)),
        Command::Write { name, path } => match session.bank(heap, name, LARGEST_BANK)? {
            Outcome::Bank(bank) => {
                Ok(written(rt, &bank, path).map_or(Outcome::NoFile, Outcome::Wrote))
            }
            other => Ok(other),
        },
        other => session.perform(heap, other),
    }
}

// Runs a line, and gives back what is left of the lines behind it.
fn step<'a>(
    rt: &HostRuntime,
    session: &mut Session,
    line: &[u8],
    behind: &'a [u8],
) -> io::Result<&'a [u8]>
    ensures { IfOk result (λ rest. length rest.now ≤ length behind.now) }
{
    let (outcome, rest) = match parse(rt.alloc(), line) {
        Ok(Line::Skipped) => return Ok(behind),
        Ok(Line::Bad) => (Outcome::BadLine, behind),
        Ok(Line::Said(command)) => {
            let rest = match &command {
                Command::Try { count } | Command::Put { count } => past_lines(behind, *count),
                _ => behind,
            };
            let outcome = perform(rt, session, command).unwrap_or(Outcome::NoMemory);
            (outcome, rest)
        }
        Err(AllocError) => (Outcome::NoMemory, behind),
    };
    print(rt, &outcome)?;
    Ok(rest)
}

fn run(rt: &HostRuntime, script: &[u8]) -> io::Result<()> {
    let mut session = Session::new(rt.alloc());
    let mut rest = script;
    while !rest.is_empty() {
        let (line, behind) = split_line(rest);
        rest = step(rt, &mut session, line, behind)?;
    }
    Ok(())
}

fn main(rt: HostRuntime) -> io::Result<()> {
    match script(&rt) {
        Ok(bytes) => run(&rt, &bytes),
        Err(error) => {
            eprintln!(rt; "librarian: the script cannot be read: {error}")?;
            Err(error)
        }
    }
}
