//! A phrase, from its making to a row.
use crate::{Constant, Phrase, settle};
use cells::{Cell, Kind, Row, Word};
use columns::Column;
use conditions::{Compared, Comparison, Condition, Formula, Operand, Scope};
use std::alloc::{AllocError, Global};
use std::test::Fail;

fn number(heap: Global, n: u32) -> Result<Row, AllocError> {
    Ok(Row {
        cells: vec![in heap; Cell::Num(n)]?,
    })
}

// not (slot < 8) or slot = 5
#[test]
fn settled(rt: HostRuntime) -> Result<(), Fail> {
    let heap = rt.alloc();
    let word = Word::new(heap, b"slot")?;
    let kind = Kind::Num;
    let columns = vec![in heap; Column { word, kind }]?;
    let scope = Scope {
        columns: &columns,
        kind: 3,
        place: 0,
    };
    let below: Phrase = Formula::Atom(Compared {
        column: b"slot",
        comparison: Comparison::Less,
        operand: Operand::Value(Constant::Number(8)),
    });
    let above = Phrase::not(heap, Phrase::bracketed(heap, below)?)?;
    let fifth: Phrase = Formula::Atom(Compared {
        column: b"slot",
        comparison: Comparison::Equal,
        operand: Operand::Value(Constant::Number(5)),
    });
    let condition = settle(heap, Phrase::or(heap, above, fifth)?, scope)?;
    assert!(rt; condition.admits(&number(heap, 5)?));
    assert!(rt; !condition.admits(&number(heap, 7)?));
    assert!(rt; condition.admits(&number(heap, 8)?));
    let unknown: Phrase = Formula::Atom(Compared {
        column: b"title",
        comparison: Comparison::Equal,
        operand: Operand::Column(b"slot"),
    });
    assert!(rt; settle(heap, unknown, scope).is_err());
    Ok(())
}
