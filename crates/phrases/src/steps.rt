//! The steps of a definition.
use crate::constants::Constant;
use crate::phrase::Phrase;

// A table by its word; the layers; a join of the two topmost.
#[derive(Drop)]
pub enum Step<'a> {
    Source(&'a [u8]),
    Select(Phrase<'a>),
    Drop(&'a [u8], Constant<'a>),
    Rename(&'a [u8], &'a [u8]),
    Join,
}

// A step, with the place of its first byte.
#[derive(Drop)]
pub struct Placed<'a> {
    pub step: Step<'a>,
    pub place: usize,
}
