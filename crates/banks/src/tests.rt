use crate::numbers::{number, put_number};
use crate::reading::read_bank;
use crate::sheet::Sheet;
use cells::{Cause, Cell, Kind, Refusal, Word, refused};
use columns::Column;
use conditions::{Comparison, Scope, Written};
use sorts::{Description, NewColumn, Sort};
use std::alloc::Global;
use std::test::Fail;

// a text and a number, which depends on the text
fn described(heap: Global) -> Result<Description, Refusal> {
    let mut songs = Description::new(heap);
    songs.add_column(
        heap,
        NewColumn {
            word: b"title",
            kind: Kind::Text,
        },
    )?;
    songs.add_column(
        heap,
        NewColumn {
            word: b"length",
            kind: Kind::Num,
        },
    )?;
    songs.add_dependency(heap, &[b"title"], &[b"length"])?;
    Ok(songs)
}

fn songs(heap: Global) -> Result<Sort, Refusal> {
    Ok(described(heap)?.seal())
}

const GLASS: [u8; 13] = [
    0x01, 0x02, 0x01, 0x00, 0x01, 0x05, 0x47, 0x6C, 0x61, 0x73, 0x73, 0x81, 0x48,
];

#[test]
fn groups(rt: HostRuntime) -> Result<(), Fail> {
    for (n, width) in [
        (0, 1),
        (127, 1),
        (128, 2),
        (16383, 2),
        (16384, 3),
        (2097151, 3),
        (2097152, 4),
        (268435455, 4),
    ] {
        assert!(rt; n <= 268435455);
        let mut out = Vec::new(rt.alloc());
        put_number(&mut out, n)?;
        assert!(rt; out.len() == width);
        let (m, rest) = number(&out).ok_or_else(|| Fail::new("no number"))?;
        assert!(rt; m == n && rest.is_empty());
    }
    Ok(())
}

#[test]
fn written(rt: HostRuntime) -> Result<(), Fail> {
    let heap = rt.alloc();
    let mut sheet = Sheet::empty(heap, 1, songs(heap)?, 4);
    sheet.read_bank(heap, &GLASS)?;
    let mut out = [9u8; 14];
    assert_eq!(rt; sheet.write_bank(heap, &mut out)?, 13);
    assert!(rt; &out[0..13] == &GLASS[0..13] && out[13] == 9);
    let refusal = sheet.write_bank(heap, &mut out[0..12]).err();
    assert_eq!(rt; refusal, Some(refused(Cause::FewBytes, 0, 0)));
    Ok(())
}

#[test]
fn refusals(rt: HostRuntime) -> Result<(), Fail> {
    let heap = rt.alloc();
    let sort = songs(heap)?;
    let cases: [(&[u8], Cause, usize); 16] = [
        (b"", Cause::BadBytes, 0),
        (b"\x02", Cause::OtherFormat, 0),
        (b"\x01", Cause::BadBytes, 1),
        (b"\x01\x03", Cause::OtherFormat, 1),
        (b"\x01\x02\x01", Cause::BadBytes, 3),
        (b"\x01\x02\x01\x01", Cause::OtherFormat, 3),
        (b"\x01\x02\x01\x00\x80\x00", Cause::BadBytes, 4),
        (b"\x01\x02\x01\x00\x05", Cause::OutOfRoom, 4),
        (b"\x01\x02\x01\x00\x01\x00\x07", Cause::Size, 5),
        (
            b"\x01\x02\x01\x00\x01\x11aaaaaaaaaaaaaaaaa\x07",
            Cause::Size,
            5,
        ),
        (b"\x01\x02\x01\x00\x01\x11a", Cause::BadBytes, 5),
        (b"\x01\x02\x01\x00\x01\x01a", Cause::BadBytes, 7),
        (b"\x01\x02\x01\x00\x01\x01a\x07\x00", Cause::BadBytes, 8),
        (
            b"\x01\x02\x01\x00\x02\x01b\x07\x01a\x07\x00",
            Cause::Order,
            1,
        ),
        (
            b"\x01\x02\x01\x00\x02\x01a\x07\x01a\x08",
            Cause::Dependency,
            1,
        ),
        (
            b"\x01\x02\x01\x00\x02\x10aaaaaaaaaaaaaaaa\x07\x01b\x80",
            Cause::BadBytes,
            25,
        ),
    ];
    for (bytes, cause, place) in cases {
        let refusal = read_bank(heap, 2, &sort, 4, bytes).err();
        assert_eq!(rt; refusal, Some(refused(cause, 2, place)));
    }
    Ok(())
}

// of songs that are shorter than 200, Glass is none
#[test]
fn not_admitted(rt: HostRuntime) -> Result<(), Fail> {
    let heap = rt.alloc();
    let mut songs = described(heap)?;
    let word = Word::new(heap, b"title")?;
    let kind = Kind::Text;
    let mut columns = vec![in heap; Column { word, kind }]?;
    let word = Word::new(heap, b"length")?;
    let kind = Kind::Num;
    columns.push(Column { word, kind })?;
    let limit = Cell::Num(200);
    let scope = Scope {
        columns: &columns,
        kind: 0,
        place: 0,
    };
    let shorter = Written::with_cell(scope, b"length", Comparison::Less, limit)?;
    songs.add_condition(heap, shorter)?;
    let refusal = read_bank(heap, 2, &songs.seal(), 4, &GLASS).err();
    assert_eq!(rt; refusal, Some(refused(Cause::NotAdmitted, 2, 0)));
    Ok(())
}
