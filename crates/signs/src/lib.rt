//! The signs of a text: words, numbers, quoted texts and marks, each a part of the text with its place.
#![tactic(auto)]

mod classes;
mod cutting;
mod reader;
mod sign;

pub use reader::Reader;
pub use sign::{Keyword, Sign, Token};
