//! What comes of a command, and how it is printed.
#![tactic(auto)]

ghost use Rattle.std.specs.Prelude.{◌≡◌, ◌<◌, ◌++◌, IfOk, OnOk, Some, string_bytes};
ghost use Rattle.cells.specs.Held.{tuples};
ghost use Rattle.outcomes.specs.Printed.{bank_text, hex_digit, hex_pair, hex_text, rows_text, text_of};

use cells::{Fault, Row};
use std::alloc::{AllocError, Global};
use std::fmt;

#[derive(Drop)]
pub enum Outcome {
    Help,
    Accepted,
    Fresh,
    Sealed(usize),
    Bank(Vec<u8>),
    Rows(Vec<Row>),
    Wrote(usize),
    Refused(Fault),
    BadLine,
    OutOfTurn,
    NoTable,
    NoFile,
    NoMemory,
}

// The commands, a line each.
const HELP: &str = "\
help
fresh
table NAME slot SLOTS ROOM {COLUMN num|text}
table NAME image BYTES ROOM {COLUMN num|text}
column COLUMN num|text
dep {COLUMN} -> {COLUMN}
seal
load NAME {HEX}
bank NAME BYTES
rows NAME
read NAME PATH
write NAME PATH
";

// A line, and a line for each row that the outcome holds.
impl fmt::Display for Outcome {
    ghost output = { λ o. Some (text_of o) };

    fn fmt<W: fmt::Write>(&self, f: &mut fmt::Formatter<W>) -> fmt::Result {
        match self {
            Outcome::Help => f.write_str(HELP),
            Outcome::Accepted => writeln!(f, "ok"),
            Outcome::Fresh => writeln!(f, "fresh"),
            Outcome::Sealed(room) => writeln!(f, "sealed room {room}"),
            Outcome::Bank(bytes) => {
                let bytes = bytes.as_slice();
                writeln!(f, "bank {}{}", bytes.len(), Hex(bytes))
            }
            Outcome::Rows(rows) => {
                let rows = rows.as_slice();
                write!(f, "rows {}\n{}", rows.len(), Lines(rows))
            }
            Outcome::Wrote(size) => writeln!(f, "wrote {size}"),
            Outcome::Refused(fault) => writeln!(
                f,
                "refused {} kind {} place {}",
                fault.cause.number(),
                fault.kind,
                fault.place
            ),
            Outcome::BadLine => writeln!(f, "bad line"),
            Outcome::OutOfTurn => writeln!(f, "out of turn"),
            Outcome::NoTable => writeln!(f, "no table"),
            Outcome::NoFile => writeln!(f, "no file"),
            Outcome::NoMemory => writeln!(f, "no memory"),
        }
    }
}

// Each byte as a space and two hexadecimal digits.
#[derive(Clone, Copy)]
struct Hex<'a>(&'a [u8]);

impl fmt::Display for Hex<'_> {
    ghost output = { λ h. Some (hex_text h.0.now) };

    fn fmt<W: fmt::Write>(&self, f: &mut fmt::Formatter<W>) -> fmt::Result {
        for &b in self.0 {
            write!(f, " {b:02X}")?;
        }
        Ok(())
    }
}

// Each row on its line.
#[derive(Clone, Copy)]
struct Lines<'a>(&'a [Row]);

impl fmt::Display for Lines<'_> {
    ghost output = { λ l. Some (rows_text (tuples l.0.now)) };

    fn fmt<W: fmt::Write>(&self, f: &mut fmt::Formatter<W>) -> fmt::Result {
        for row in self.0 {
            writeln!(f, "{row}")?;
        }
        Ok(())
    }
}

impl Outcome {
    // What is printed of the outcome, as a text. The bytes of a bank are pushed digit by digit, since by `Display` they
    // take three times as long.
    pub fn text(&self, heap: Global) -> Result<String, AllocError>
        ensures { IfOk result (λ s. string_bytes s ≡ text_of self.now) }
    {
        match self {
            Outcome::Bank(bytes) => bank_text(heap, bytes.as_slice()),
            other => format!(in heap; "{other}"),
        }
    }
}

fn bank_text(heap: Global, bytes: &[u8]) -> Result<String, AllocError>
    ensures { IfOk result (λ s. string_bytes s ≡ bank_text bytes.now) }
{
    let mut text = format!(in heap; "bank {}", bytes.len())?;
    for &b in bytes {
        push_pair(&mut text, b)?;
    }
    text.push_str("\n")?;
    Ok(text)
}

// Writes a byte as a space and two hexadecimal digits.
fn push_pair(out: &mut String, b: u8) -> Result<(), AllocError>
    ensures { OnOk result (string_bytes out.new ≡ string_bytes out.old ++ hex_pair b) }
{
    out.push_str(" ")?;
    out.push(hex_digit(b / 16))?;
    out.push(hex_digit(b % 16))?;
    Ok(())
}

fn hex_digit(n: u8) -> char
    requires { n < 16 }
    ensures { result ≡ hex_digit n }
{
    if n < 10 {
        char::from(b'0' + n)
    } else {
        char::from(b'A' + (n - 10))
    }
}

#[cfg(test)]
mod tests;
