//! Comparisons by a table, a pick from its making to a row, and the clone of a word.
use crate::{Compared, Comparison, Condition, Formula, Operand, Pick, Place, Scope};
use cells::{Cell, Kind, Row, Word};
use columns::Column;
use std::alloc::{AllocError, Global};
use std::test::Fail;

// Whether 5 stands so to another number.
fn five(heap: Global, comparison: Comparison, other: u32) -> Result<bool, Fail> {
    let row = Row {
        cells: vec![in heap; Cell::Num(5)]?,
    };
    let place = Place::new(0).ok_or_else(|| Fail::new("no place"))?;
    let operand = Operand::Value(Cell::Num(other));
    let written = Formula::Atom(Compared {
        column: place,
        comparison,
        operand,
    });
    Ok(written.admits(&row))
}

#[test]
fn comparisons(rt: HostRuntime) -> Result<(), Fail> {
    let heap = rt.alloc();
    let table = [
        (Comparison::Equal, false, true, false),
        (Comparison::Unequal, true, false, true),
        (Comparison::Less, false, false, true),
        (Comparison::AtMost, false, true, true),
        (Comparison::Greater, true, false, false),
        (Comparison::AtLeast, true, true, false),
    ];
    for (comparison, with_four, with_five, with_six) in table {
        assert_eq!(rt; five(heap, comparison, 4)?, with_four);
        assert_eq!(rt; five(heap, comparison, 5)?, with_five);
        assert_eq!(rt; five(heap, comparison, 6)?, with_six);
    }
    Ok(())
}

fn texts(heap: Global, first: &str, second: &str) -> Result<Vec<Cell>, AllocError> {
    let first = Cell::Text(String::from_str(heap, first)?);
    let second = Cell::Text(String::from_str(heap, second)?);
    Ok(vec![in heap; first, second]?)
}

#[test]
fn picks(rt: HostRuntime) -> Result<(), Fail> {
    let heap = rt.alloc();
    let turned = Pick::new(heap, b"bank", texts(heap, "Pads", "Bass")?);
    assert!(rt; turned.is_err());
    let title = Column {
        word: Word::new(heap, b"title")?,
        kind: Kind::Num,
    };
    let bank = Column {
        word: Word::new(heap, b"bank")?,
        kind: Kind::Text,
    };
    let columns = vec![in heap; title, bank]?;
    let scope = Scope {
        columns: &columns,
        kind: 3,
        place: 0,
    };
    let unknown = Pick::new(heap, b"author", texts(heap, "Bass", "Pads")?)?;
    assert!(rt; unknown.at(scope).is_err());
    let pick = Pick::new(heap, b"bank", texts(heap, "Bass", "Pads")?)?.at(scope)?;
    let row = Row {
        cells: texts(heap, "Glass", "Pads")?,
    };
    assert!(rt; pick.admits(&row));
    let other = Row {
        cells: texts(heap, "Pads", "Keys")?,
    };
    assert!(rt; !pick.admits(&other));
    Ok(())
}

#[test]
fn cloned_word(rt: HostRuntime) -> Result<(), Fail> {
    let title = Word::new(rt.alloc(), b"title")?;
    let clone = title.clone()?;
    assert!(rt; clone.is(b"title") && title.is(b"title"));
    Ok(())
}
