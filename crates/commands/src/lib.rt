//! The lines of a session script, read as commands.
#![tactic(auto)]

mod lists;
pub mod numbers;
pub mod parsing;
pub mod tokens;
pub mod unread;

pub use parsing::{Command, Line, Storage, parse};
pub use tokens::{Token, split_line};
pub use unread::Unread;
