//! Texts at their limits, and rows at theirs.
use crate::faults::{
    CheckFault, ColumnFault, LineFault, LoadFault, SheetFault, TextFault, VerdictFault,
};
use crate::letters::unsound_field;
use crate::report::{REPORT_BYTES, report};
use crate::reserved::Reserved;
use crate::row::Row;
use crate::sheet::Sheet;
use crate::text::check_text;
use crate::text_sheet::TextSheet;
use std::error::Error;
use std::fmt::InlineText;
use std::test::Fail;

const GOOD: &[u8; 42] = b"H   4   2   2\nS   0   1   0\nF   3   3  30\n";

fn row(letter: u8, a: u16, b: u16, n: u16) -> Row {
    Row { letter, a, b, n }
}

fn words<E: Error>(fault: E) -> InlineText<64> {
    InlineText::of(fault)
}

// Where a text is out of form.
fn form(line: u16, column: u16) -> Result<(), TextFault> {
    Err(TextFault::Line(LineFault::Form(ColumnFault { line, column })))
}

#[test]
fn lengths(rt: HostRuntime) {
    assert_eq!(rt; check_text(b"H   4   2   0"), Err(TextFault::TooShort));
    assert_eq!(rt; check_text(b"H   4   2   0\n"), Ok(()));
    assert_eq!(rt;
        check_text(b"H   4   2   0\n "),
        Err(TextFault::WrongLength)
    );
}

#[test]
fn columns(rt: HostRuntime) {
    assert_eq!(rt; check_text(b"X   4   2   0\n"), form(1, 1));
    assert_eq!(rt; check_text(b"H  00   2   0\n"), form(1, 4));
    assert_eq!(rt; check_text(b"H 1 1   2   0\n"), form(1, 4));
    assert_eq!(rt; check_text(b"H   4       0\n"), form(1, 9));
    assert_eq!(rt; check_text(b"H   4   2   0 "), form(1, 14));
    assert_eq!(rt; check_text(b"H   4   2   1\nH   0   0   0\n"), form(2, 1));
    assert_eq!(rt; check_text(b"H   4   2   1\nS   0   0   -\n"), form(2, 13));
}

#[test]
fn limits(rt: HostRuntime) {
    assert_eq!(rt; check_text(b"H9999   2   0\n"), Err(TextFault::TooLarge));
    assert_eq!(rt; check_text(b"H  64  32 512\n"), Err(TextFault::WrongLength));
    assert_eq!(rt; check_text(b"H  64  32 513\n"), Err(TextFault::TooLarge));
    let unsound = Err(TextFault::Line(LineFault::UnsoundLine { line: 2, field: 2 }));
    assert_eq!(rt; check_text(b"H   4   2   1\nS9999   0   0\n"), unsound);
}

#[test]
fn cuts(rt: HostRuntime) {
    let good: &[u8] = GOOD;
    assert_eq!(rt; check_text(good), Ok(()));
    for cut in 0..good.len() {
        assert!(rt; check_text(&good[0..cut]).is_err());
    }
}

#[test]
fn sheets(rt: HostRuntime) {
    let sheet = TextSheet::new(GOOD);
    assert_eq!(rt; sheet.row(0), Some(row(b'S', 0, 1, 0)));
    assert_eq!(rt; sheet.row(1), Some(row(b'F', 3, 3, 30)));
    assert_eq!(rt; sheet.row(2), None);
    assert_eq!(rt; sheet.capacity(), 2);
    let empty = TextSheet::new(b"H");
    assert_eq!(rt; empty.classes(), 0);
    assert_eq!(rt; empty.row(0), None);
}

// A list has room for as many items as it says, and gives back the next.
#[test]
fn reserved(rt: HostRuntime) -> Result<(), Fail> {
    let mut list: Reserved<u16, 2> = Reserved::new(rt.alloc())?;
    assert_eq!(rt; list.push(7), Ok(()));
    assert_eq!(rt; list.insert(2, 5), Err(5));
    assert_eq!(rt; list.insert(0, 5), Ok(()));
    assert_eq!(rt; list.push(9), Err(9));
    assert_eq!(rt; list.as_slice().get(1).copied(), Some(7));
    assert_eq!(rt; list.remove(0), Some(5));
    assert_eq!(rt; list.remove(1), None);
    list.clear();
    assert_eq!(rt; list.len(), 0);
    Ok(())
}

#[test]
fn fields(rt: HostRuntime) {
    assert_eq!(rt; unsound_field(row(b'F', 0, 0, 30), 4, 2), None);
    assert_eq!(rt; unsound_field(row(b'F', 0, 0, 31), 4, 2), Some(4));
    assert_eq!(rt; unsound_field(row(b'F', 0, 0, 0), 4, 2), Some(4));
    assert_eq!(rt; unsound_field(row(b'F', 0, 4, 1), 4, 2), Some(3));
}

#[test]
fn longest_text(rt: HostRuntime) -> Result<(), Fail> {
    let mut text = Vec::new(rt.alloc());
    text.extend_from_slice(b"H  64  32 512\n")?;
    for _ in 0..512 {
        text.extend_from_slice(b"S   0  63   0\n")?;
    }
    assert_eq!(rt; check_text(text.as_slice()), Ok(()));
    text.extend_from_slice(b"S   0  63   0\n")?;
    assert_eq!(rt; check_text(text.as_slice()), Err(TextFault::WrongLength));
    Ok(())
}

#[test]
fn report_of_an_example(rt: HostRuntime) {
    let text: &[u8] = b"H   3   1   3\nD   1   1   0\nX   1   1   0\nF   2   0   1\n";
    let expected: &[u8] = b"V   2   1   0\nC   1   0   0\nC   2   0   0\nA   0   0   0\n";
    let mut bytes = [7u8; REPORT_BYTES];
    assert_eq!(rt; report(text, &mut bytes), Ok(56));
    assert!(rt; &bytes[0..56] == expected);
    assert_eq!(rt; bytes[56], 7);
}

// A fault that holds a fault passes its words on.
#[test]
fn words_of_faults(rt: HostRuntime) {
    let form = TextFault::Line(LineFault::Form(ColumnFault {
        line: 2,
        column: 13,
    }));
    let form = words(LoadFault::Text(form));
    assert_eq!(rt; form.as_str(), "line 2, column 13 is out of form");
    let unsound = SheetFault::UnsoundRow { row: 4, field: 3 };
    let unsound = words(VerdictFault::Check(CheckFault::Sheet(unsound)));
    assert_eq!(rt; unsound.as_str(), "row 4, field 3 is unsound");
    let large = words(TextFault::TooLarge);
    let limits = "the text has more than 64 classes, 32 arrows or 512 rows";
    assert_eq!(rt; large.as_str(), limits);
}
