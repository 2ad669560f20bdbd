//! Conditions: what reads columns of a row and admits it or not. Written conditions, and picks.
#![tactic(auto)]

mod building;
mod interface;
mod mixing;
mod picking;
mod places;
mod settling;
mod trees;
mod truth;

pub use building::building_stands;
pub use either::Either;
pub use interface::{Condition, admits_all, reads_all};
pub use picking::Pick;
pub use picking::choosing::{kind_of, picks_stand};
pub use picking::placing::PickAt;
pub use places::Place;
pub use settling::Scope;
pub use trees::{Compared, Comparison, Formula, Operand, Written};

#[cfg(test)]
mod tests;
