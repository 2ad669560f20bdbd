//! Reading a bank.
ghost use Rattle.model.specs.Banks.{read_bank};
ghost use Rattle.banks.specs.Fields.{AnswersBank};
ghost use Rattle.sorts.specs.Sealed.{sort_of};

use crate::breaking::first_break;
use crate::cursor::Cursor;
use cells::{Cause, Refusal, Row, refused};
use sorts::Sort;
use std::alloc::Global;

// The rows of a bank, for a table of that kind, sort and room. No other function takes the three.
pub fn read_bank(
    heap: Global,
    kind: u8,
    sort: &Sort,
    room: usize,
    bytes: &[u8],
) -> Result<Vec<Row>, Refusal>
    ensures { AnswersBank (read_bank kind (sort_of sort.now) room bytes.now) result }
{
    let mut cursor = Cursor {
        heap,
        rest: bytes,
        size: bytes.len(),
        kind,
    };
    let rows = cursor.fields(sort, room)?;
    match first_break(sort, &rows) {
        Some(row) => Err(refused(Cause::Dependency, kind, row)),
        None => Ok(rows),
    }
}
