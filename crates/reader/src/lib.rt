//! Conditions and definitions, read from text.
#![tactic(auto)]

mod connectives;
mod definitions;
mod parser;
mod reading;
mod terminals;

pub use reading::{Definition, read_condition, read_definition};
