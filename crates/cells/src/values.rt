//! Cells: numbers and texts.
ghost use Rattle.std.specs.Prelude.{◌≡◌, IfOk};
ghost use Rattle.model.specs.Orders.{by_bytes};
ghost use Rattle.model.specs.Sorts.{Kind as ModelKind, is_text, is_text_byte, of_kind};
ghost use Rattle.model.specs.Values.{every, same_value, text};
ghost use Rattle.cells.specs.Held.{kind_of, value, offered, ordering};

use crate::kinds::Kind;
use std::alloc::{AllocError, Global};
use std::cmp::Ordering;

pub const GREATEST: u32 = 268_435_455;

// A cell as it is offered. Not each is a cell of a table: `is_of` tells.
#[derive(Clone, PartialEq, Eq, PartialOrd, Ord, Debug, Drop)]
pub enum Cell {
    Num(u32),
    Text(String),
}

// `compare` and `is_same` are the derived comparisons, promised in the words of values, so that no caller owes a lemma.
impl Cell {
    // Whether this is a cell of the kind.
    pub fn is_of(&self, kind: Kind) -> bool
        ensures { result ≡ of_kind (kind_of kind) (value self.now) }
    {
        match (kind, self) {
            (Kind::Num, Cell::Num(n)) => *n <= GREATEST,
            (Kind::Text, Cell::Text(s)) => is_text(s.as_bytes()),
            _ => false,
        }
    }

    // The text cell of some bytes. Bytes that are no UTF-8 are no cell, and the empty text stands for them.
    pub fn from_bytes(heap: Global, bytes: &[u8]) -> Result<Cell, AllocError>
        ensures value { IfOk result (λ c. value c ≡ offered bytes.now) }
        ensures kinds { IfOk result (λ c. (k : ModelKind) → of_kind k (value c) ≡ of_kind k (text bytes.now)) }
    {
        match std::str::from_utf8(bytes) {
            Ok(s) => Ok(Cell::Text(String::from_str(heap, s)?)),
            Err(_) => Ok(Cell::Text(String::new(heap))),
        }
    }

    // The order of cells: numbers first, by value, then texts by their bytes.
    pub fn compare(&self, other: &Cell) -> Ordering
        ensures { ordering result ≡ by_bytes (value self.now) (value other.now) }
    {
        self.cmp(other)
    }

    pub fn is_same(&self, other: &Cell) -> bool
        ensures { result ≡ same_value (value self.now) (value other.now) }
    {
        *self == *other
    }
}

pub fn is_text(bytes: &[u8]) -> bool
    ensures { result ≡ is_text bytes.now }
{
    (1..=16).contains(&bytes.len()) && are_text_bytes(bytes)
}

fn are_text_bytes(bytes: &[u8]) -> bool
    ensures { result ≡ every is_text_byte bytes.now }
{
    bytes.iter().all(|b| is_text_byte(*b))
}

// The bytes from space to ~, but for the quote.
pub fn is_text_byte(b: u8) -> bool
    ensures { result ≡ is_text_byte b }
{
    matches!(b, b' '..=b'~') && b != b'"'
}
