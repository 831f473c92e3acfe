//! Every drawing, drawn, and the largest sheet that is judged.
use crate::saying::draw;
use crate::told::Told;
use pile::trial::Trial;
use schema::faults::{CheckFault, Notice, SheetFault, VerdictFault};
use schema::row::Row;
use schema::sheet::Sheet;
use schema::text_sheet::TextSheet;
use schema::verdict::verdict;
use std::test::Fail;

fn refused(number: u16, first: u16) -> Told {
    Told::Refusal(Notice {
        number,
        first,
        second: 0,
    })
}

#[test]
fn each_drawing(rt: HostRuntime) -> Result<(), Fail> {
    let expected = [
        Told::Table([0, 0, 0, 0, 0, 0]),
        Told::Table([1, 0, 0, 0, 0, 0]),
        Told::Table([1, 0, 0, 0, 0, 0]),
        Told::Table([0, 0, 0, 0, 0, 0]),
        Told::Table([1, 0, 0, 0, 1, 0]),
        Told::Table([0, 0, 0, 0, 1, 0]),
        refused(17, 1),
        Told::Table([0, 0, 0, 0, 0, 0]),
        Told::Answer(true),
        Told::Answer(false),
        refused(20, 0),
        Told::Answer(true),
        Told::Answer(false),
        Told::Table([0, 0, 0, 0, 0, 0]),
        Told::Answer(true),
        Told::Answer(false),
        Told::Answer(true),
    ];
    for (line, told) in expected.iter().enumerate() {
        assert_eq!(rt; draw(rt.alloc(), line)?, Some(*told));
    }
    assert_eq!(rt; draw(rt.alloc(), expected.len())?, None);
    Ok(())
}

// Arrow 2, to which two arrows lead, has a cap.
#[test]
fn three_arrows(rt: HostRuntime) {
    let rows = b"H   4   3   6\nP   0   2   0\nP   1   2   0\nQ   0   1   0\n\
        F   0   0   1\nF   0   2   1\nK   0   4   1\n";
    let mut table = [7; 7];
    let fault = VerdictFault::Check(CheckFault::Capped { row: 5 });
    assert_eq!(rt; verdict(&TextSheet::new(rows), &mut table), Err(fault));
    assert_eq!(rt;
        Notice::from(fault),
        Notice {
            number: 17,
            first: 5,
            second: 0,
        }
    );
    assert_eq!(rt; table, [7; 7]);
}

// 512 rows are judged, and one more is too many.
#[test]
fn most_rows(rt: HostRuntime) -> Result<(), Fail> {
    let mut text = Vec::new(rt.alloc());
    text.extend_from_slice(b"H   4   2 512\n")?;
    for _ in 0..512 {
        text.extend_from_slice(b"X   0   0   0\n")?;
    }
    let Ok(mut sheet) = Trial::new(rt.alloc(), TextSheet::new(text.as_slice())) else {
        return Err(Fail::new("no memory"));
    };
    let mut table = [7; 6];
    assert_eq!(rt; sheet.len(), 512);
    assert_eq!(rt; verdict(&sheet, &mut table), Ok(1));
    let more = Row {
        letter: b'X',
        a: 0,
        b: 0,
        n: 0,
    };
    assert_eq!(rt; sheet.enter(more), Ok(()));
    let fault = VerdictFault::Check(CheckFault::Sheet(SheetFault::OverLimits));
    assert_eq!(rt; verdict(&sheet, &mut table), Err(fault));
    assert_eq!(rt; Notice::from(fault).number, 15);
    Ok(())
}
