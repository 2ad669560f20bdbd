//! The interface of conditions.
ghost use Rattle.std.specs.Prelude.{◌≡◌, map};
ghost use Rattle.model.specs.ColumnSets.{Same};
ghost use Rattle.model.specs.Sorts.{Part, admitted};
ghost use Rattle.cells.specs.Held.{tuple};
ghost use Rattle.columns.specs.Members.{members};
ghost use Rattle.conditions.specs.Reading.{Reads};

use cells::Row;
use columns::ColumnSet;

// One part of a condition: the columns that it reads and the rows that it admits. Rows that agree on those columns are
// admitted alike, which is a law of `Part`.
pub trait Condition {
    ghost part: { Self → Part };

    fn reads(&self) -> ColumnSet
        ensures { Same (members result) (part self.now).reads };

    fn admits(&self, row: &Row) -> bool
        ensures { result ≡ (part self.now).admits (tuple row.now) };
}

// Whether every part admits the row.
pub fn admits_all<C: Condition>(parts: &[C], row: &Row) -> bool
    ensures { result ≡ admitted (map C.Condition.part parts.now) (tuple row.now) }
{
    parts.iter().all(|part| part.admits(row))
}

// The columns that some part reads.
pub fn reads_all<C: Condition>(parts: &[C]) -> ColumnSet
    ensures { Reads (map C.Condition.part parts.now) (members result) }
{
    parts
        .iter()
        .fold(ColumnSet::empty(), |all, part| all.union(&part.reads()))
}
