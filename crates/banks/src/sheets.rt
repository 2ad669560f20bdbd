//! Stored relations, read from banks and written as banks.
ghost use Rattle.std.specs.Prelude.{◌≡◌, min, [], length};
ghost use Rattle.model.specs.Banks.{bank, read_bank};
ghost use Rattle.cells.specs.Held.{tuples};
ghost use Rattle.sorts.specs.Sealed.{sort_of};
ghost use Rattle.banks.specs.Sheets.{ReadInto, WrittenTo, relation, store};

use crate::reading::read_bank;
use crate::sheet::Sheet;
use crate::writing::put_bank;
use cells::{Cause, Refusal, Row};
use sorts::Sort;
use std::alloc::Global;

impl Sheet {
    // No rows yet. A room above 128 counts as 128.
    pub fn empty(heap: Global, kind: u8, sort: Sort, room: usize) -> Sheet
        ensures { (store result ≡ record { kind = kind; sort = sort_of sort; room = min room 128 }) × (relation result ≡ []) }
    {
        Sheet {
            kind,
            sort,
            room: room.min(128),
            rows: Vec::new(heap),
        }
    }

    pub fn rows(&self) -> &[Row]
        ensures { tuples result.now ≡ relation self.now }
    {
        self.rows.as_slice()
    }

    // The rows of a bank take the place of those that are stored. A refusal changes nothing.
    pub fn read_bank(&mut self, heap: Global, bytes: &[u8]) -> Result<(), Refusal>
        ensures { ReadInto self.old self.new bytes.now result }
    {
        let rows = read_bank(heap, self.kind, &self.sort, self.room, bytes)?;
        self.rows = rows;
        Ok(())
    }

    // Writes the bank of the rows at the front of the bytes and answers its length. Bytes after it do not change.
    pub fn write_bank(&self, heap: Global, out: &mut [u8]) -> Result<usize, Refusal>
        ensures { WrittenTo (bank (store self.now).sort.columns (relation self.now)) out.old out.new result }
    {
        let mut bytes = Vec::new(heap);
        put_bank(&mut bytes, self.sort.columns(), &self.rows)?;
        let n = bytes.len();
        if out.len() < n {
            return Err(Refusal::of(Cause::FewBytes));
        }
        out[0..n].copy_from_slice(&bytes);
        Ok(n)
    }
}
