//! Columns, and the place of the one with a word.
ghost use Rattle.std.specs.Prelude.{◌≡◌};
ghost use Rattle.model.specs.Sorts.{lookup};
ghost use Rattle.columns.specs.Named.{named_columns};

use cells::{Kind, Word};

#[derive(Debug, Drop)]
pub struct Column {
    pub word: Word,
    pub kind: Kind,
}

// The place of the column with that word, or none.
pub fn place_of(columns: &[Column], word: &[u8]) -> Option<usize>
    ensures { result ≡ lookup (named_columns columns.now) word.now }
{
    columns.iter().position(|column| column.word.is(word))
}
