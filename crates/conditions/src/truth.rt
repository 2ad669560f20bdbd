//! What written conditions read and admit.
ghost use Rattle.std.specs.Prelude.{◌≡◌, slice_index_or};
ghost use Rattle.model.specs.ColumnSets.{Same, singleton};
ghost use Rattle.model.specs.Conditions.{holds, admits_row, operand_reads, reads_of};
ghost use Rattle.model.specs.Orders.{by_bytes};
ghost use Rattle.cells.specs.Held.{ordering, tuple};
ghost use Rattle.columns.specs.Members.{members};
ghost use Rattle.conditions.specs.Meaning.{sign_of, operand_of, compared_of, meaning, written_part};

use crate::interface::Condition;
use crate::places::Place;
use crate::trees::{Compared, Comparison, Formula, Operand, Written};
use cells::{Cell, Row};
use columns::ColumnSet;
use std::cmp::Ordering;

impl Comparison {
    // Whether the comparison holds of cells in this order.
    pub fn holds(self, order: Ordering) -> bool
        ensures { result ≡ holds (sign_of self) (ordering order) }
    {
        match self {
            Comparison::Equal => order.is_eq(),
            Comparison::Unequal => order.is_ne(),
            Comparison::Less => order.is_lt(),
            Comparison::AtMost => order.is_le(),
            Comparison::Greater => order.is_gt(),
            Comparison::AtLeast => order.is_ge(),
        }
    }
}

impl Operand<Place, Cell> {
    fn names(&self) -> ColumnSet
        ensures { Same (members result) (operand_reads (operand_of self.now)) }
    {
        match self {
            Operand::Column(place) => only(*place),
            Operand::Value(_) => ColumnSet::empty(),
        }
    }
}

impl Compared<Place, Cell> {
    // The columns that it names.
    fn names(&self) -> ColumnSet
        ensures { Same (members result) (reads_of (compared_of self.now)) }
    {
        only(self.column).union(&self.operand.names())
    }

    fn is_true_of(&self, row: &Row) -> bool
        ensures { result ≡ admits_row by_bytes (compared_of self.now) (tuple row.now) }
    {
        let absent = Cell::Num(0);
        let left = cell_at(row, self.column, &absent);
        let order = match &self.operand {
            Operand::Column(other) => left.compare(cell_at(row, *other, &absent)),
            Operand::Value(cell) => left.compare(cell),
        };
        self.comparison.holds(order)
    }
}

impl Written {
    fn names(&self) -> ColumnSet
        ensures { Same (members result) (reads_of (meaning self.now)) }
    {
        match self {
            Formula::Atom(compared) => compared.names(),
            Formula::Not(inner) | Formula::Bracket(inner) => inner.names(),
            Formula::And(left, right) | Formula::Or(left, right) => {
                left.names().union(&right.names())
            }
        }
    }

    fn is_true_of(&self, row: &Row) -> bool
        ensures { result ≡ admits_row by_bytes (meaning self.now) (tuple row.now) }
    {
        match self {
            Formula::Atom(compared) => compared.is_true_of(row),
            Formula::Not(inner) => !inner.is_true_of(row),
            Formula::Bracket(inner) => inner.is_true_of(row),
            Formula::And(left, right) => left.is_true_of(row) && right.is_true_of(row),
            Formula::Or(left, right) => left.is_true_of(row) || right.is_true_of(row),
        }
    }
}

impl Condition for Written {
    ghost part = { written_part };

    fn reads(&self) -> ColumnSet {
        self.names()
    }

    fn admits(&self, row: &Row) -> bool {
        self.is_true_of(row)
    }
}

pub(crate) fn only(place: Place) -> ColumnSet
    ensures { Same (members result) (singleton place.at) }
{
    ColumnSet::empty().with(place.at())
}

// The cell at a place, and another where the row ends before it.
pub(crate) fn cell_at<'a>(row: &'a Row, place: Place, absent: &'a Cell) -> &'a Cell
    ensures { result.now ≡ slice_index_or row.now.cells.items place.at absent.now }
{
    row.cells.get(place.at()).unwrap_or(absent)
}
