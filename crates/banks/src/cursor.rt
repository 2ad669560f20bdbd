//! The bytes of a bank that are left to read, and the fields that are read from them.
ghost use Rattle.std.specs.Prelude.{◌≡◌, ℕ, [], ◌∷◌, map, length, if◌then◌else◌, None, nat_eq};
ghost use Rattle.model.specs.Banks.{header, kind_byte, place_in, read_cell, read_cells, read_count, read_fields, read_header, read_number, read_row, read_rows};
ghost use Rattle.model.specs.Judging.{above};
ghost use Rattle.model.specs.Orders.{by_bytes};
ghost use Rattle.model.specs.Sorts.{texts};
ghost use Rattle.cells.specs.Held.{kind_of, tuple, value};
ghost use Rattle.cells.specs.Numbered.{number};
ghost use Rattle.columns.specs.Named.{named_columns};
ghost use Rattle.sorts.specs.Sealed.{sort_of};
ghost use Rattle.banks.specs.Fields.{Reads, held, kind_bytes, left, row_before};

use crate::numbers;
use cells::{Cause, Cell, Kind, Refusal, Row, is_text, refused};
use columns::Column;
use sorts::Sort;
use std::alloc::Global;

// the edition of the format
pub(crate) const EDITION: u8 = 1;

// What is left to read of a bank of `size` bytes, for a table of a kind.
#[derive(Drop)]
pub(crate) struct Cursor<'a> {
    pub(crate) heap: Global,
    pub(crate) rest: &'a [u8],
    // of the whole bank, so that what is left tells the place
    pub(crate) size: usize,
    pub(crate) kind: u8,
}

// The byte of a kind. No `From`: it would have to stand in the crate of `Kind`, which knows no banks.
pub(crate) fn kind_byte(kind: Kind) -> u8
    ensures { result ≡ kind_byte (kind_of kind) }
{
    match kind {
        Kind::Num => 0,
        Kind::Text => 1,
    }
}

// Why bytes do not begin with the byte that is due.
fn mismatch(rest: &[u8]) -> Cause
    ensures { number result ≡ (if nat_eq (length rest.now) 0 then 23 else 24) }
{
    if rest.is_empty() {
        Cause::BadBytes
    } else {
        Cause::OtherFormat
    }
}

// Whether a row is above the one before, if there is one.
fn is_above(before: Option<&Row>, row: &Row) -> bool
    ensures { result ≡ above by_bytes (row_before before.entry) (tuple row.now) }
{
    before.is_none_or(|last| last.is_below(row))
}

impl<'a> Cursor<'a> {
    // The refusal of the field that stands next.
    pub(crate) fn bad(&self, cause: Cause) -> Refusal
        ensures { result ≡ Refusal.Fault (record { cause = cause; kind = self.now.kind; place = place_in self.now.size (left self.now) }) }
    {
        refused(cause, self.kind, self.size.saturating_sub(self.rest.len()))
    }

    pub(crate) fn number(&mut self) -> Result<u32, Refusal>
        ensures { Reads (λ (n : ℕ). n) self.old.size self.old.kind self.new (read_number self.old.size (left self.old)) result }
    {
        let (n, rest) = numbers::number(self.rest).ok_or(self.bad(Cause::BadBytes))?;
        self.rest = rest;
        Ok(n)
    }

    fn text(&mut self) -> Result<Cell, Refusal>
        ensures { Reads value self.old.size self.old.kind self.new (read_cell self.old.size texts (left self.old)) result }
    {
        let cut_off = self.bad(Cause::BadBytes);
        let (length, bytes) = self.rest.split_first().ok_or(cut_off)?;
        let (text, rest) = bytes.split_at_checked(usize::from(*length)).ok_or(cut_off)?;
        if !is_text(text) {
            return Err(self.bad(Cause::Size));
        }
        let cell = Cell::from_bytes(self.heap, text)?;
        self.rest = rest;
        Ok(cell)
    }

    fn cell(&mut self, kind: Kind) -> Result<Cell, Refusal>
        ensures { Reads value self.old.size self.old.kind self.new (read_cell self.old.size (kind_of kind) (left self.old)) result }
    {
        match kind {
            Kind::Num => {
                let n = self.number()?;
                Ok(Cell::Num(n))
            }
            Kind::Text => self.text(),
        }
    }

    // The cells of a row, one for each column.
    pub(crate) fn row(&mut self, columns: &[Column]) -> Result<Row, Refusal>
        ensures { Reads tuple self.old.size self.old.kind self.new (read_cells self.old.size (named_columns columns.now) (left self.old)) result }
    {
        let mut cells = Vec::new(self.heap);
        for c in columns {
            let cell = self.cell(c.kind)?;
            cells.push(cell)?;
        }
        Ok(Row { cells })
    }

    // A byte that is due.
    fn byte(&mut self, due: usize) -> Result<(), Refusal>
        ensures { Reads (λ (u : Unit {0}). u) self.old.size self.old.kind self.new (read_header self.old.size (due ∷ []) (left self.old)) result }
    {
        match self.rest {
            [b, rest @ ..] if usize::from(*b) == due => {
                self.rest = rest;
                Ok(())
            }
            rest => Err(self.bad(mismatch(rest))),
        }
    }

    // The bytes of the columns' kinds.
    fn kinds(&mut self, columns: &[Column]) -> Result<(), Refusal>
        ensures { Reads (λ (u : Unit {0}). u) self.old.size self.old.kind self.new (read_header self.old.size (kind_bytes (named_columns columns.now)) (left self.old)) result }
    {
        for c in columns {
            self.byte(usize::from(kind_byte(c.kind)))?;
        }
        Ok(())
    }

    // The edition, the number of columns and their kinds.
    pub(crate) fn header(&mut self, columns: &[Column]) -> Result<(), Refusal>
        ensures { Reads (λ (u : Unit {0}). u) self.old.size self.old.kind self.new (read_header self.old.size (header (named_columns columns.now)) (left self.old)) result }
    {
        self.byte(usize::from(EDITION))?;
        self.byte(columns.len())?;
        self.kinds(columns)
    }

    // The row count, which may not be above the room.
    pub(crate) fn count(&mut self, room: usize) -> Result<usize, Refusal>
        ensures { Reads (λ (n : ℕ). n) self.old.size self.old.kind self.new (read_count self.old.size room (left self.old)) result }
    {
        let above = self.bad(Cause::OutOfRoom);
        let n = self.number()? as usize;
        if n > room {
            return Err(above);
        }
        Ok(n)
    }

    // A row that is judged: it is to be above the one before, and admitted.
    fn judged_row(
        &mut self,
        sort: &Sort,
        before: Option<&Row>,
        index: usize,
    ) -> Result<Row, Refusal>
        ensures { Reads tuple self.old.size self.old.kind self.new (read_row self.old.size (sort_of sort.now) (row_before before.entry) index (left self.old)) result }
    {
        let row = self.row(sort.columns())?;
        if !is_above(before, &row) {
            return Err(refused(Cause::Order, self.kind, index));
        }
        if !sort.admits(&row) {
            return Err(refused(Cause::NotAdmitted, self.kind, index));
        }
        Ok(row)
    }

    // So many rows.
    pub(crate) fn rows(&mut self, sort: &Sort, count: usize) -> Result<Vec<Row>, Refusal>
        ensures { Reads held self.old.size self.old.kind self.new (read_rows self.old.size (sort_of sort.now) None 0 count (left self.old)) result }
    {
        let mut rows = Vec::new(self.heap);
        for i in 0..count {
            let row = self.judged_row(sort, rows.last(), i)?;
            rows.push(row)?;
        }
        Ok(rows)
    }

    // The fields of a bank, to its end.
    pub(crate) fn fields(&mut self, sort: &Sort, room: usize) -> Result<Vec<Row>, Refusal>
        ensures { Reads held self.old.size self.old.kind self.new (read_fields self.old.size (sort_of sort.now) room (left self.old)) result }
    {
        self.header(sort.columns())?;
        let count = self.count(room)?;
        let rows = self.rows(sort, count)?;
        if !self.rest.is_empty() {
            return Err(self.bad(Cause::BadBytes));
        }
        Ok(rows)
    }
}
