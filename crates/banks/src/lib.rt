//! Banks: relations as bytes.
#![tactic(auto)]

mod breaking;
mod cursor;
mod numbers;
mod reading;
mod sheet;
mod sheets;
mod writing;

pub use breaking::first_break;
pub use reading::read_bank;
pub use sheet::Sheet;

#[cfg(test)]
mod tests;
