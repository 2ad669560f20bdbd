//! Picks, with their columns by word.
ghost use Rattle.std.specs.Prelude.{◌≡◌, true, map};
ghost use Rattle.cells.specs.Held.{value};
ghost use Rattle.conditions.specs.Picks.{is_choice};

use cells::Cell;

pub mod choosing;
pub mod placing;

// A column by its word, and 1 to 32 ascending cells of one kind.
#[derive(Debug, Drop)]
pub struct Pick {
    // bytes and no `Word`, since it is only looked up, and may be no word at all
    word: Vec<u8>,
    cells: Vec<Cell>,
    ghost proper: { is_choice (map value cells.items) ≡ true },
}
