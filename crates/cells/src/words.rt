//! Words: the names of tables and columns.
ghost use Rattle.std.specs.Prelude.{◌≡◌, true, string_bytes};
ghost use Rattle.model.specs.Words.{is_name};

pub mod spelling;

// A word that may name something: 1 to 12 letters a to z, and no keyword.
#[derive(PartialEq, Eq, Debug, Drop)]
pub struct Word {
    text: String,
    ghost proper: { is_name (string_bytes text) ≡ true },
}
