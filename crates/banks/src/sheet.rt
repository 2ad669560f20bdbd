//! A stored relation.
ghost use Rattle.std.specs.Prelude.{◌≡◌, ◌≤◌, true, vec_len};
ghost use Rattle.model.specs.Decisions.{meets};
ghost use Rattle.model.specs.Orders.{by_bytes};
ghost use Rattle.cells.specs.Held.{tuples};
ghost use Rattle.sorts.specs.Sealed.{sort_of};

use cells::Row;
use sorts::Sort;

// The rows of a stored table. They meet the table's sort and fit its room, which is never above 128.
#[derive(Drop)]
pub struct Sheet {
    pub(crate) kind: u8,
    pub(crate) sort: Sort,
    pub(crate) room: usize,
    pub(crate) rows: Vec<Row>,
    ghost sound: { meets by_bytes (sort_of sort) (tuples rows.items) ≡ true },
    ghost fits: { vec_len rows ≤ room },
    ghost small: { room ≤ 128 },
}
