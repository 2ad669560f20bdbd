//! A set of columns.
ghost use Rattle.std.specs.Prelude.{◌≡◌, length};

// The columns by their places, which are below 8.
#[derive(Clone, Copy, PartialEq, Eq, Debug)]
pub struct ColumnSet {
    pub(crate) places: [bool; 8],
    ghost wide: { length places ≡ 8 },
}
