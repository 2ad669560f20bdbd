//! How many rows a table has room for.
ghost use Rattle.std.specs.Prelude.{◌≡◌, ◌≤◌, length};
ghost use Rattle.columns.specs.Named.{named_columns};
ghost use Rattle.cells.specs.Held.{kind_of};
ghost use Rattle.session.specs.Callers.{cell_width, row_width, room_in, kind_number};

use cells::Kind;
use columns::Column;
use commands::Storage;

// The bytes that the largest cell of a kind takes.
fn cell_width(kind: Kind) -> usize
    ensures width { result ≡ cell_width (kind_of kind) }
    ensures most { result ≤ 17 }
{
    match kind {
        Kind::Num => 4,
        Kind::Text => 17,
    }
}

fn row_width(columns: &[Column]) -> usize
    requires { length columns.now ≤ 8 }
    ensures { result ≡ row_width (named_columns columns.now) }
{
    columns.iter().map(|column| cell_width(column.kind)).sum()
}

// The room of a table that is described with a room and stored so.
pub(crate) fn room_of(storage: Storage, room: usize, columns: &[Column]) -> usize
    requires { length columns.now ≤ 8 }
    ensures { result ≡ room_in storage room (named_columns columns.now) }
{
    let fitting = match storage {
        Storage::Slots(n) => n as usize,
        Storage::Image(n) => (n as usize)
            .saturating_sub(12)
            .checked_div(row_width(columns))
            .unwrap_or(0),
    };
    room.min(fitting)
}

// No `From`: it would have to stand in the crate of `Storage`, which knows no kinds of tables.
pub(crate) fn kind_number(storage: Storage) -> u8
    ensures { result ≡ kind_number storage }
{
    match storage {
        Storage::Slots(_) => 1,
        Storage::Image(_) => 2,
    }
}
