//! A sort that is being described.
ghost use Rattle.std.specs.Prelude.{◌≤◌, vec_len};

use columns::{Column, Dependency};
use conditions::Written;

#[derive(Drop)]
pub struct Description {
    pub(crate) columns: Vec<Column>,
    pub(crate) deps: Vec<Dependency>,
    pub(crate) parts: Vec<Written>,
    ghost few: { vec_len columns ≤ 8 },
}
