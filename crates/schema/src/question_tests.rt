//! Questions about small sheets.
use crate::faults::{Notice, QuestionFault};
use crate::question::question;
use crate::row::Row;
use crate::text_sheet::TextSheet;

// What a text's sheet answers about a row.
fn ask(text: &[u8], letter: u8, a: u16, b: u16, n: u16) -> Result<bool, QuestionFault> {
    question(&TextSheet::new(text), Row { letter, a, b, n })
}

#[test]
fn counted(rt: HostRuntime) {
    let text = b"H   4   2   2\nF   0   0   2\nP   0   1   0\n";
    assert_eq!(rt; ask(text, b'F', 0, 2, 1), Ok(true));
    assert_eq!(rt; ask(text, b'F', 0, 0, 3), Ok(false));
    assert_eq!(rt; ask(text, b'F', 0, 2, 2), Err(QuestionFault::Uncounted));
    let fault = QuestionFault::UnsoundAsked { field: 2 };
    assert_eq!(rt; ask(text, b'S', 4, 0, 0), Err(fault));
    assert_eq!(rt;
        Notice::from(fault),
        Notice {
            number: 19,
            first: 2,
            second: 0,
        }
    );
}

#[test]
fn parted(rt: HostRuntime) {
    let tails = b"H   4   2   3\nD   0   0   0\nD   2   1   0\nX   0   1   0\n";
    assert_eq!(rt; ask(tails, b'Q', 0, 1, 0), Ok(true));
    assert_eq!(rt; ask(tails, b'P', 0, 1, 0), Ok(false));
    let empty = b"H   4   2   1\nX   0   0   0\n";
    assert_eq!(rt; ask(empty, b'S', 0, 1, 0), Ok(true));
    assert_eq!(rt; ask(empty, b'S', 1, 0, 0), Ok(false));
    assert_eq!(rt; ask(empty, b'X', 1, 0, 0), Ok(true));
}
