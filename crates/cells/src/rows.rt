//! Rows of cells.
ghost use Rattle.std.specs.Prelude.{◌≡◌, IfOk};
ghost use Rattle.model.specs.Decisions.{is_below};
ghost use Rattle.model.specs.Orders.{by_bytes, compare_tuples};
ghost use Rattle.model.specs.Values.{same_tuple};
ghost use Rattle.cells.specs.Held.{tuple, tuples, value, ordering};
ghost use Rattle.cells.specs.declared.rows.Row.{Row};
ghost use Rattle.cells.specs.declared.values.Cell.{Cell};

use crate::values::Cell;
use std::alloc::{AllocError, Global};
use std::cmp::Ordering;

#[derive(Clone, PartialEq, Eq, PartialOrd, Ord, Debug, Drop)]
pub struct Row {
    pub cells: Vec<Cell>,
}

// The derived comparisons, promised in the words of tuples, so that no caller owes a lemma.
impl Row {
    // The order of rows, by their first differing cell.
    pub fn compare(&self, other: &Row) -> Ordering
        ensures { ordering result ≡ compare_tuples by_bytes (tuple self.now) (tuple other.now) }
    {
        self.cmp(other)
    }

    pub fn is_below(&self, other: &Row) -> bool
        ensures { result ≡ is_below (compare_tuples by_bytes (tuple self.now) (tuple other.now)) }
    {
        self.compare(other).is_lt()
    }

    pub fn is_same(&self, other: &Row) -> bool
        ensures { result ≡ same_tuple (tuple self.now) (tuple other.now) }
    {
        *self == *other
    }
}

// A clone of a cell or of a row stands for the same.
pub fn clones_stand()
    ensures cells { (a b : Cell) → ⟦<Cell as Clone>⟧.is_clone a b → value b ≡ value a }
    ensures rows { (a b : Row) → ⟦<Row as Clone>⟧.is_clone a b → tuple b ≡ tuple a }
{}

#[tactic(auto, using(crate::proofs::Copies::clone_tuples))]
pub fn copied_rows(heap: Global, rows: &[Row]) -> Result<Vec<Row>, AllocError>
    ensures { IfOk result (λ v. tuples v.items ≡ tuples rows.now) }
{
    let mut out = Vec::new(heap);
    out.extend_with_clones(rows)?;
    Ok(out)
}
