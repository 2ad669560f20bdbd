//! A table that is being described.
ghost use Rattle.std.specs.Prelude.{◌≤◌};

use crate::description::Description;
use cells::Word;

// Its name, its room and the sort described so far.
#[derive(Drop)]
pub struct NewTable {
    pub name: Word,
    pub sort: Description,
    pub room: usize,
    ghost some: { 1 ≤ room },
    ghost few: { room ≤ 128 },
}
