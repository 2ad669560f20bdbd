//! What is offered to a description.
use cells::Kind;

// A column to be, by a word that may be none. One type of both words would be named with its word in every definition over columns.
#[derive(Clone, Copy)]
pub struct NewColumn<'a> {
    pub word: &'a [u8],
    pub kind: Kind,
}
