//! Conditions and definitions as they are written, with columns and tables by their words, which are parts of the text.
#![tactic(auto)]

mod constants;
mod phrase;
mod settling;
mod steps;

pub use constants::Constant;
pub use phrase::{Phrase, building_stands};
pub use settling::settle;
pub use steps::{Placed, Step};

#[cfg(test)]
mod tests;
