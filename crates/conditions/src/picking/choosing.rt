//! How picks are made.
ghost use Rattle.std.specs.Prelude.{◌≡◌, map};
ghost use Rattle.model.specs.Orders.{by_bytes};
ghost use Rattle.model.specs.Sorts.{of_kind};
ghost use Rattle.model.specs.Values.{every};
ghost use Rattle.cells.specs.Answering.{Answers};
ghost use Rattle.cells.specs.Held.{kind_of, value};
ghost use Rattle.conditions.specs.Picks.{is_cell, is_few, kind_of_value, of_first_kind, pick_fault, rising, PicksRight};
ghost use Rattle.conditions.specs.Picked.{chosen, sought};

use super::Pick;
use cells::{Cause, Cell, Kind, Refusal};
use std::alloc::Global;

impl Pick {
    // The cells come first, whatever the word: it is looked up later.
    pub fn new(heap: Global, word: &[u8], cells: Vec<Cell>) -> Result<Pick, Refusal>
        ensures { Answers (pick_fault (map value cells.items)) (λ p. (sought p ≡ word.now) × (chosen p ≡ map value cells.items)) result }
    {
        if !are_cells(&cells) {
            return Err(Refusal::of(Cause::Shape));
        }
        if !are_few(&cells) {
            return Err(Refusal::of(Cause::Limit));
        }
        if !are_of_one_kind(&cells) {
            return Err(Refusal::of(Cause::Shape));
        }
        if !are_ascending(&cells) {
            return Err(Refusal::of(Cause::Order));
        }
        let word = Vec::from_slice(heap, word)?;
        Ok(Pick { word, cells })
    }
}

// No fault is due exactly to 1 to 32 ascending cells of one kind.
pub fn picks_stand()
    ensures { PicksRight }
{}

// No `From`: its promise is in the words of picks, which the crate of `Cell` does not know.
pub fn kind_of(cell: &Cell) -> Kind
    ensures { kind_of result ≡ kind_of_value (value cell.now) }
{
    match cell {
        Cell::Num(_) => Kind::Num,
        Cell::Text(_) => Kind::Text,
    }
}

fn are_cells(cells: &[Cell]) -> bool
    ensures { result ≡ every is_cell (map value cells.now) }
{
    cells.iter().all(|cell| cell.is_of(kind_of(cell)))
}

fn are_few(cells: &[Cell]) -> bool
    ensures { result ≡ is_few (map value cells.now) }
{
    (1..=32).contains(&cells.len())
}

fn are_of_one_kind(cells: &[Cell]) -> bool
    ensures { result ≡ of_first_kind (map value cells.now) }
{
    cells
        .first()
        .is_none_or(|first| are_of(kind_of(first), cells))
}

fn are_of(kind: Kind, cells: &[Cell]) -> bool
    ensures { result ≡ every (of_kind (kind_of kind)) (map value cells.now) }
{
    cells.iter().all(|cell| cell.is_of(kind))
}

fn are_ascending(cells: &[Cell]) -> bool
    ensures { result ≡ rising by_bytes (map value cells.now) }
{
    cells.is_sorted_by(|a, b| a.compare(b).is_lt())
}
