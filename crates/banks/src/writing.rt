//! Rows as the bytes of a bank.
ghost use Rattle.std.specs.Prelude.{◌≡◌, ℕ, ◌<◌, ◌≤◌, List, ◌++◌, length, OnOk};
ghost use Rattle.std.specs.List.{flat_map};
ghost use Rattle.model.specs.Banks.{bank, coded_cell, coded_row};
ghost use Rattle.model.specs.Sorts.{greatest};
ghost use Rattle.cells.specs.Held.{tuple, tuples, value};
ghost use Rattle.columns.specs.Named.{named_columns};
ghost use Rattle.banks.specs.Codable.{All, Codable};
ghost use Rattle.banks.specs.Fields.{kind_bytes};

use crate::cursor::{EDITION, kind_byte};
use crate::numbers::put_number;
use cells::{Cell, Row};
use columns::Column;
use std::alloc::AllocError;

// What stands in a bank as bytes.
trait Coded {
    ghost fits: { Self → Type 0 };

    ghost code: { Self → List ℕ };

    // Adds the bytes after those that are there.
    fn put(&self, out: &mut Vec<u8>) -> Result<(), AllocError>
        requires { fits self.now }
        ensures { OnOk result (out.new.items ≡ out.old.items ++ code self.now) };
}

impl Coded for Cell {
    ghost fits = { λ c. Codable (value c) };

    ghost code = { λ c. coded_cell (value c) };

    fn put(&self, out: &mut Vec<u8>) -> Result<(), AllocError> {
        match self {
            Cell::Num(n) => put_number(out, *n),
            Cell::Text(s) => {
                let bytes = s.as_bytes();
                out.push(bytes.len() as u8)?;
                out.extend_from_slice(bytes)?;
                Ok(())
            }
        }
    }
}

impl Coded for Row {
    ghost fits = { λ r. All Codable (tuple r) };

    ghost code = { λ r. coded_row (tuple r) };

    fn put(&self, out: &mut Vec<u8>) -> Result<(), AllocError> {
        put_all(out, &self.cells)
    }
}

// Adds the bytes of one after another.
fn put_all<T: Coded>(out: &mut Vec<u8>, items: &[T]) -> Result<(), AllocError>
    requires { All T.fits items.now }
    ensures { OnOk result (out.new.items ≡ out.old.items ++ flat_map T.code items.now) }
{
    for item in items {
        item.put(out)?;
    }
    Ok(())
}

fn put_kinds(out: &mut Vec<u8>, columns: &[Column]) -> Result<(), AllocError>
    ensures { OnOk result (out.new.items ≡ out.old.items ++ kind_bytes (named_columns columns.now)) }
{
    out.extend(columns.iter().map(|column| kind_byte(column.kind)))
}

pub(crate) fn put_bank(
    out: &mut Vec<u8>,
    columns: &[Column],
    rows: &[Row],
) -> Result<(), AllocError>
    requires few { length columns.now < 256 }
    requires counted { length rows.now ≤ greatest }
    requires codable { All (All Codable) (tuples rows.now) }
    ensures { OnOk result (out.new.items ≡ out.old.items ++ bank (named_columns columns.now) (tuples rows.now)) }
{
    out.extend_from_slice(&[EDITION, columns.len() as u8])?;
    put_kinds(out, columns)?;
    put_number(out, rows.len() as u32)?;
    put_all(out, rows)
}
