//! Columns, sets of columns and functional dependencies: closure, tree form and the order in which dependencies are worked.
#![tactic(auto)]

mod agreeing;
mod column;
mod dependencies;
mod set;
mod sets;

pub use column::{Column, place_of};
pub use dependencies::{Dependency, closure, has_tree_form, in_order};
pub use set::ColumnSet;
