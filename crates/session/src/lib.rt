//! A session: a caller with tables, of which one at a time may be under description.
#![tactic(auto)]

mod rooms;
mod stops;
mod tables;
mod working;

pub use tables::Session;
