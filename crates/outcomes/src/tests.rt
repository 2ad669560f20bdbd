//! Texts of outcomes.
use crate::Outcome;
use cells::{Cell, Row};
use std::test::Fail;

// a bank is listed by its bytes, and rows each on a line
#[test]
fn texts(rt: HostRuntime) -> Result<(), Fail> {
    let heap = rt.alloc();
    let bank = Outcome::Bank(vec![in heap; 1, 0xAB, 0xF0]?);
    assert!(rt; bank.text(heap)?.as_str() == "bank 3 01 AB F0\n");
    let row = Row {
        cells: vec![in heap; Cell::Num(200)]?,
    };
    let rows = Outcome::Rows(vec![in heap; row]?);
    assert!(rt; rows.text(heap)?.as_str() == "rows 1\n200\n");
    assert!(rt; Outcome::Accepted.text(heap)?.as_str() == "ok\n");
    Ok(())
}
