//! What a caller holds.
ghost use Rattle.cells.specs.Worded.{letters};

use banks::Sheet;
use cells::Word;
use commands::Storage;
use sorts::{Named, NewTable};

// A stored table: its name and its rows, with their kind number, sort and room.
#[derive(Drop)]
pub struct Table {
    pub(crate) name: Word,
    pub(crate) sheet: Sheet,
}

impl Named for Table {
    ghost name = { λ t. letters t.name };

    fn is_named(&self, word: &[u8]) -> bool {
        self.name.is(word)
    }
}

// A table under description.
#[derive(Drop)]
pub struct Draft {
    pub(crate) table: NewTable,
    pub(crate) storage: Storage,
}

// The caller's tables. The session is idle unless there is a draft.
#[derive(Drop)]
pub struct Session {
    pub(crate) tables: Vec<Table>,
    pub(crate) draft: Option<Draft>,
}
