use crate::{Cause, Cell, Kind, Row, is_keyword, is_name, is_word};
use std::alloc::{AllocError, Global};
use std::test::Fail;

#[test]
fn cells_of_a_kind(rt: HostRuntime) -> Result<(), Fail> {
    for (text, is) in [
        ("", false),
        ("~", true),
        ("sixteen bytes ok", true),
        ("seventeen bytes..", false),
        ("a \"quote", false),
        ("\x7F", false),
        ("\n", false),
    ] {
        let cell = Cell::from_bytes(rt.alloc(), text.as_bytes())?;
        assert_eq!(rt; cell.is_of(Kind::Text), is, "{}", text);
        assert!(rt; !cell.is_of(Kind::Num));
    }
    assert!(rt; Cell::Num(0).is_of(Kind::Num));
    assert!(rt; Cell::Num(268_435_455).is_of(Kind::Num));
    assert!(rt; !Cell::Num(268_435_456).is_of(Kind::Num));
    assert!(rt; !Cell::Num(1).is_of(Kind::Text));
    Ok(())
}

fn row(heap: Global, title: &[u8], number: u32) -> Result<Row, AllocError> {
    let mut cells = Vec::new(heap);
    cells.push(Cell::from_bytes(heap, title)?)?;
    cells.push(Cell::Num(number))?;
    Ok(Row { cells })
}

#[test]
fn rows_in_order(rt: HostRuntime) -> Result<(), Fail> {
    let glass = row(rt.alloc(), b"Glass", 200)?;
    let copy = glass.clone()?;
    assert!(rt; glass.is_same(&copy));
    assert!(rt; !glass.is_below(&copy));
    let next = row(rt.alloc(), b"Glass", 201)?;
    assert!(rt; glass.is_below(&next));
    let longer = row(rt.alloc(), b"Glasses", 0)?;
    assert!(rt; next.is_below(&longer));
    assert!(rt; !longer.is_below(&glass));
    let shorter = Row {
        cells: Vec::new(rt.alloc()),
    };
    assert!(rt; shorter.is_below(&glass));
    assert!(rt; Cell::Num(9) < Cell::from_bytes(rt.alloc(), b"1")?);
    let text = glass.to_string(rt.alloc())?;
    assert_eq!(rt; text.as_str(), "\"Glass\" 200");
    Ok(())
}

#[test]
fn words(rt: HostRuntime) {
    for (word, is) in [
        ("", false),
        ("a", true),
        ("abcdefghijkl", true),
        ("abcdefghijklm", false),
        ("aB", false),
        ("a`", false),
        ("a{", false),
        ("selects", true),
    ] {
        assert_eq!(rt; is_word(word.as_bytes()), is, "{}", word);
        assert_eq!(rt; is_name(word.as_bytes()), is, "{}", word);
    }
    for word in [
        "and", "as", "default", "drop", "join", "not", "or", "rename", "select",
    ] {
        assert!(rt;
            is_keyword(word.as_bytes()) && is_word(word.as_bytes()) && !is_name(word.as_bytes()),
            "{}",
            word
        );
    }
    assert_eq!(rt; Cause::FewBytes.number(), 26);
}
