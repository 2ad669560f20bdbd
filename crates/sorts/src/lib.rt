//! Sorts: a table is described column by column and dependency by dependency, and then sealed.
#![tactic(auto)]

mod describing;
mod description;
mod ensuring;
mod offered;
mod sealing;
mod sort;
mod table;
mod tables;

pub use description::Description;
pub use offered::NewColumn;
pub use sort::Sort;
pub use table::NewTable;
pub use tables::{Named, describe};
