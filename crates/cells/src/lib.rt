//! Cells and rows, the kinds of columns, words, and the faults that calls are refused with.
#![tactic(auto)]

mod display;
mod faults;
mod kinds;
mod rows;
mod values;
mod words;

pub use faults::{Cause, Fault, Refusal, equality_stands, refused};
pub use kinds::Kind;
pub use rows::{Row, clones_stand, copied_rows};
pub use values::{Cell, GREATEST, is_text, is_text_byte};
pub use words::Word;
pub use words::spelling::{is_keyword, is_name, is_word};

#[cfg(test)]
mod tests;
