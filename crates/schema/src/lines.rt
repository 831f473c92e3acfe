//! Lines: a letter, three numbers of four columns each and a line feed.
ghost use Rattle.std.specs.Prelude.{◌≡◌, ℕ, ◌≤◌, true, Decides, MatchResult};
ghost use Rattle.schema.specs.Rows.{Sound};
ghost use Rattle.schema.specs.Texts.{line, row_line, BadColumn, RowLetter};
ghost use Rattle.schema.specs.Texts.{Header as HeaderLetter};
ghost use Rattle.schema.specs.Columns.{head_line, LineStrays, LineFaulty};
ghost use Rattle.schema.specs.declared.faults.LineFault.TheVariants.{Form};

use crate::columns::read_group;
use crate::counts::Counts;
use crate::faults::{ColumnFault, LineFault};
use crate::letters::unsound_field;
use crate::limits::LINE_BYTES;
use crate::row::Row;

// Where the parts of a line begin, from 1.
const LETTER: u16 = 1;

const FIRST: u16 = 2;

const SECOND: u16 = 6;

const THIRD: u16 = 10;

const FEED: u16 = 14;

/// What a line says: a letter, which may be any byte, and three numbers that fit their columns.
#[derive(Clone, Copy)]
pub(crate) struct Line {
    pub letter: u8,
    pub a: u16,
    pub b: u16,
    pub n: u16,
    ghost fits: { (a ≤ 9999) × (b ≤ 9999) × (n ≤ 9999) },
}

/// What line 1 tells.
#[derive(Clone, Copy, PartialEq, Eq, Debug)]
pub(crate) struct Header {
    pub classes: u16,
    pub arrows: u16,
    pub rows: u16,
}

/// The first line of a text.
pub(crate) fn header_line(bytes: &[u8; LINE_BYTES]) -> Result<Header, LineFault>
    ensures { MatchResult result (λ h. (h.classes ≤ 9999) × (h.arrows ≤ 9999) × (h.rows ≤ 9999) × (bytes.now ≡ head_line h.classes h.arrows h.rows)) (λ e. (k : ℕ) × (e ≡ Form (record { line = 1; column = k })) × BadColumn HeaderLetter bytes.now k) }
{
    let parts = read_line(bytes, 1, |letter| matches!(letter, b'H'))?;
    Ok(Header {
        classes: parts.a,
        arrows: parts.b,
        rows: parts.n,
    })
}

/// The line of a row, which is in form and sound for the counts of line 1.
pub(crate) fn row_line(
    bytes: &[u8; LINE_BYTES],
    number: u16,
    counts: Counts,
) -> Result<Row, LineFault>
    ensures { MatchResult result (λ row. (bytes.now ≡ row_line row) × Sound counts.classes counts.arrows row) (λ e. LineFaulty bytes.now number counts.classes counts.arrows e) }
{
    let Line { letter, a, b, n } = read_line(bytes, number, begins_row)?;
    let row = Row { letter, a, b, n };
    match unsound_field(row, counts.classes, counts.arrows) {
        Some(field) => Err(LineFault::UnsoundLine {
            line: number,
            field,
        }),
        None => Ok(row),
    }
}

// Whether a letter begins the line of a row. By a match, which the project's rules want of a line's letter, so that the
// seven of `SHAPES` stand here again.
fn begins_row(letter: u8) -> bool
    ensures { Decides result (RowLetter letter) }
{
    matches!(letter, b'S' | b'X' | b'D' | b'F' | b'K' | b'P' | b'Q')
}

// A line in form, with a letter that may begin it. It is taken apart as the project's rules want: letter, first group's
// bytes, rest. As a slice, since no pattern with a rest was proved of an array, by reference or by value.
fn read_line<F: Fn(u8) -> bool>(
    bytes: &[u8; LINE_BYTES],
    number: u16,
    begins: F,
) -> Result<Line, ColumnFault>
    requires callable { F.IsAlwaysCallable begins }
    ensures { MatchResult result (λ l. F.post begins l.letter true × (bytes.now ≡ line l.letter l.a l.b l.n)) (λ e. (e.line ≡ number) × LineStrays (F.post begins) bytes.now e.column) }
{
    let [letter, a0, a1, a2, a3, rest @ ..] = bytes.as_slice() else {
        unreachable()
    };
    let [b0, b1, b2, b3, n0, n1, n2, n3, feed] = rest else {
        unreachable()
    };
    if !begins(*letter) {
        return Err(ColumnFault {
            line: number,
            column: LETTER,
        });
    }
    let a = read_group([*a0, *a1, *a2, *a3], number, FIRST)?;
    let b = read_group([*b0, *b1, *b2, *b3], number, SECOND)?;
    let n = read_group([*n0, *n1, *n2, *n3], number, THIRD)?;
    if *feed != b'\n' {
        return Err(ColumnFault {
            line: number,
            column: FEED,
        });
    }
    Ok(Line {
        letter: *letter,
        a,
        b,
        n,
    })
}
