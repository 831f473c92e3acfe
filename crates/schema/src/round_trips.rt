//! Texts that are loaded, printed and read back.
use crate::book::Book;
use crate::faults::{LoadFault, PrintFault, ReprintFault, SheetFault, TextFault};
use crate::loading::load;
use crate::print::{print, read_back, reprint};
use crate::row::Row;
use crate::sheet::Sheet;
use crate::text_sheet::TextSheet;
use std::test::Fail;

// Arrow 0 leads to arrow 1, which has a cap: a verdict is refused, and the sheet is printed all the same.
const TEXT: &[u8; 42] = b"H   4   2   2\nP   0   1   0\nK   0   2   1\n";

#[test]
fn loads(rt: HostRuntime) -> Result<(), Fail> {
    let mut book = Book::new(rt.alloc())?;
    assert_eq!(rt; load(&mut book, TEXT), Err(LoadFault::MoreNames));
    book.set_up(4, 2)?;
    assert_eq!(rt; load(&mut book, TEXT), Ok(()));
    assert_eq!(rt; load(&mut book, TEXT), Ok(()));
    assert_eq!(rt; book.len(), 4);
    assert_eq!(rt;
        load(&mut book, b"H"),
        Err(LoadFault::Text(TextFault::TooShort))
    );
    let mut full = TextSheet::new(TEXT);
    assert_eq!(rt; load(&mut full, TEXT), Err(LoadFault::NoRoom));
    let row = Row {
        letter: b'S',
        a: 0,
        b: 4,
        n: 0,
    };
    book.enter(row)?;
    let unsound = SheetFault::UnsoundRow { row: 4, field: 3 };
    assert_eq!(rt; print(&book, &mut [0; 99]), Err(PrintFault::Sheet(unsound)));
    Ok(())
}

#[test]
fn prints(rt: HostRuntime) -> Result<(), Fail> {
    let sheet = TextSheet::new(TEXT);
    let mut bytes = [b'?'; 43];
    assert_eq!(rt;
        print(&sheet, &mut bytes[0..41]),
        Err(PrintFault::ShortBuffer)
    );
    assert_eq!(rt;
        reprint(TEXT, &mut bytes[0..41]),
        Err(ReprintFault::ShortBuffer)
    );
    assert_eq!(rt; bytes[0], b'?');
    assert_eq!(rt; reprint(TEXT, &mut bytes), Ok(42));
    assert_eq!(rt; bytes[41], b'\n');
    assert_eq!(rt; bytes[42], b'?');
    let back = read_back(&sheet, &mut bytes)?;
    assert_eq!(rt; back.row(1), sheet.row(1));
    Ok(())
}
