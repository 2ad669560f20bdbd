//! Picks at their places, as conditions.
ghost use Rattle.std.specs.Prelude.{◌≡◌, map, IfErr, Some, ◌≢◌};
ghost use Rattle.model.specs.Sorts.{lookup};
ghost use Rattle.model.specs.Values.{any, same_value};
ghost use Rattle.cells.specs.Answering.{Answers};
ghost use Rattle.cells.specs.Held.{kind_of, value};
ghost use Rattle.cells.specs.declared.faults.Refusal.TheVariants.{Memory};
ghost use Rattle.conditions.specs.Found.{in_scope};
ghost use Rattle.conditions.specs.Picks.{first_kind};
ghost use Rattle.conditions.specs.Picked.{chosen, sought};
ghost use Rattle.conditions.specs.Placed.{pick_part, placed_cells};
ghost use Rattle.conditions.specs.Resolving.{kind_named, kinds_fault};

use super::Pick;
use super::choosing::kind_of;
use crate::interface::Condition;
use crate::places::Place;
use crate::settling::Scope;
use crate::truth::{cell_at, only};
use cells::{Cell, Kind, Refusal, Row};
use columns::ColumnSet;

// A pick with its column by its place.
#[derive(Debug, Drop)]
pub struct PickAt {
    place: Place,
    pick: Pick,
}

impl Pick {
    // The kind of its cells.
    pub fn kind(&self) -> Kind
        ensures { first_kind (chosen self.now) ≡ Some (kind_of result) }
    {
        kind_of(&self.cells[0])
    }

    // Looks its column up.
    pub fn at(self, scope: Scope<'_>) -> Result<PickAt, Refusal>
        ensures answers { Answers (kinds_fault scope.entry.kind scope.entry.place (kind_named (in_scope scope.entry) (sought self)) (first_kind (chosen self))) (λ p. (Some p.place.at ≡ lookup (in_scope scope.entry) (sought self)) × (placed_cells p ≡ chosen self)) result }
        ensures decides { IfErr result (λ e. e ≢ Memory) }
    {
        let column = scope.find(&self.word)?;
        scope.match_kinds(column.kind, self.kind())?;
        Ok(PickAt {
            place: column.place,
            pick: self,
        })
    }
}

impl Condition for PickAt {
    ghost part = { pick_part };

    fn reads(&self) -> ColumnSet {
        only(self.place)
    }

    fn admits(&self, row: &Row) -> bool {
        let absent = Cell::Num(0);
        is_among(cell_at(row, self.place, &absent), &self.pick.cells)
    }
}

fn is_among(cell: &Cell, cells: &[Cell]) -> bool
    ensures { result ≡ any (same_value (value cell.now)) (map value cells.now) }
{
    cells.iter().any(|other| cell.is_same(other))
}
