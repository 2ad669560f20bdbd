//! When rows agree on a set of columns.
ghost use Rattle.std.specs.Prelude.{◌≡◌, take};
ghost use Rattle.model.specs.Values.{cell, same_value};
ghost use Rattle.model.specs.Sorts.{agrees};
ghost use Rattle.cells.specs.Held.{tuple};
ghost use Rattle.columns.specs.Members.{members};

use crate::set::ColumnSet;
use cells::{Cell, Row};

// Whether the rows hold the same at a place. A place past a row's end counts as the number 0.
fn same_at(s: &Row, t: &Row, place: usize) -> bool
    ensures { result ≡ same_value (cell (tuple s.now) place) (cell (tuple t.now) place) }
{
    let zero = Cell::Num(0);
    let a = s.cells.get(place).unwrap_or(&zero);
    let b = t.cells.get(place).unwrap_or(&zero);
    a.is_same(b)
}

impl ColumnSet {
    // Whether the rows hold the same in each column of the set below a width.
    pub fn agrees(&self, width: usize, s: &Row, t: &Row) -> bool
        ensures { result ≡ agrees (take width (members self.now)) (tuple s.now) (tuple t.now) }
    {
        self.places
            .iter()
            .take(width)
            .enumerate()
            .all(|(i, is_in)| !*is_in || same_at(s, t, i))
    }
}
