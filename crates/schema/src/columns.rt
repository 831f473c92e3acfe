//! Numbers in four columns, right-justified: blanks, then digits.
ghost use Rattle.std.specs.Prelude.{◌≡◌, ℕ, ◌+◌, ◌/◌, ◌<◌, ◌≤◌, true, false, length, MatchOption, MatchResult, ◌≢◌};
ghost use Rattle.schema.specs.Texts.{group};
ghost use Rattle.schema.specs.Columns.{mark, Strays, Group};

use crate::faults::ColumnFault;

/// The number in four columns, the first of which is `column`.
// By hand, since `parse` reads text, which the bytes may not be, and tells no column. Line and column come apart, since a
// fault is made only where a column is wrong.
pub(crate) fn read_group(bytes: [u8; 4], line: u16, column: u16) -> Result<u16, ColumnFault>
    requires { (length bytes ≡ 4) × (column ≤ 14) }
    ensures { MatchResult result (λ v. (v ≤ 9999) × (bytes ≡ group v)) (λ e. (j : ℕ) × (j < 4) × (e ≡ record { line = line; column = column + j }) × Strays Group bytes j) }
{
    let [b0, b1, b2, b3] = bytes;
    let thousands = blank_or_digit(b0, 0).ok_or(ColumnFault { line, column })?;
    let hundreds = blank_or_digit(b1, thousands).ok_or(ColumnFault {
        line,
        column: column + 1,
    })?;
    let tens = blank_or_digit(b2, hundreds).ok_or(ColumnFault {
        line,
        column: column + 2,
    })?;
    digit(b3, tens).ok_or(ColumnFault {
        line,
        column: column + 3,
    })
}

// A column before the last: a blank while only blanks have come, which say 0, and then a digit.
fn blank_or_digit(byte: u8, before: u16) -> Option<u16>
    requires { before ≤ 999 }
    ensures { MatchOption result ((v : ℕ) → v / 10 ≡ before → byte ≢ mark false v) (λ v. (byte ≡ mark false v) × (v / 10 ≡ before)) }
{
    match byte {
        b' ' if before == 0 => Some(0),
        b'0' if before == 0 => None,
        _ => digit(byte, before),
    }
}

// A digit, after columns that say `before`.
fn digit(byte: u8, before: u16) -> Option<u16>
    requires { before ≤ 999 }
    ensures { MatchOption result ((v : ℕ) → v / 10 ≡ before → byte ≢ mark true v) (λ v. (byte ≡ mark true v) × (v / 10 ≡ before)) }
{
    match byte {
        b'0'..=b'9' => Some(before * 10 + u16::from(byte - b'0')),
        _ => None,
    }
}
