//! Rows that break a dependency with an earlier one.
ghost use Rattle.std.specs.Prelude.{◌≡◌, ℕ, not, ◌&&◌, [], map, take, None, MatchOption};
ghost use Rattle.model.specs.Faults.{fault};
ghost use Rattle.model.specs.Judging.{breaks, dep_fault};
ghost use Rattle.model.specs.Sorts.{agrees};
ghost use Rattle.model.specs.Values.{any};
ghost use Rattle.cells.specs.Held.{tuple, tuples};
ghost use Rattle.columns.specs.Members.{dependencies, members};
ghost use Rattle.sorts.specs.Sealed.{narrowed, sort_of};

use cells::Row;
use columns::Dependency;
use sorts::Sort;

// Whether two rows agree on the left set, and not on the right set. The sets count below the width.
fn breaks_with(width: usize, d: &Dependency, s: &Row, t: &Row) -> bool
    ensures { result ≡ (agrees (take width (members d.now.left)) (tuple s.now) (tuple t.now) && not (agrees (take width (members d.now.right)) (tuple s.now) (tuple t.now))) }
{
    d.left.agrees(width, s, t) && !d.right.agrees(width, s, t)
}

// Whether the row breaks the dependency with one of the earlier rows.
fn breaks_one(width: usize, d: &Dependency, earlier: &[Row], row: &Row) -> bool
    ensures { result ≡ any (λ s. agrees (take width (members d.now.left)) s (tuple row.now) && not (agrees (take width (members d.now.right)) s (tuple row.now))) (tuples earlier.now) }
{
    earlier.iter().any(|s| breaks_with(width, d, s, row))
}

fn breaks_some(width: usize, deps: &[Dependency], earlier: &[Row], row: &Row) -> bool
    ensures { result ≡ breaks (map (narrowed width) (dependencies deps.now)) (tuples earlier.now) (tuple row.now) }
{
    deps.iter().any(|d| breaks_one(width, d, earlier, row))
}

fn first_break_of(width: usize, deps: &[Dependency], rows: &[Row]) -> Option<usize>
    ensures { MatchOption result ((k : ℕ) → dep_fault k (map (narrowed width) (dependencies deps.now)) [] 0 (tuples rows.now) ≡ None) (λ p. (k : ℕ) → dep_fault k (map (narrowed width) (dependencies deps.now)) [] 0 (tuples rows.now) ≡ fault 20 k p) }
{
    rows.iter()
        .enumerate()
        .position(|(i, row)| breaks_some(width, deps, &rows[..i], row))
}

// The first row that breaks a dependency with an earlier one.
pub fn first_break(sort: &Sort, rows: &[Row]) -> Option<usize>
    ensures { MatchOption result ((k : ℕ) → dep_fault k (sort_of sort.now).deps [] 0 (tuples rows.now) ≡ None) (λ p. (k : ℕ) → dep_fault k (sort_of sort.now).deps [] 0 (tuples rows.now) ≡ fault 20 k p) }
{
    first_break_of(sort.columns().len(), sort.deps(), rows)
}
