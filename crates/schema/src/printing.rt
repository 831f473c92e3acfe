//! Writing lines: a letter, three numbers in four columns each, and a line feed.
ghost use Rattle.std.specs.Prelude.{◌≡◌, ◌+◌, ◌*◌, ◌%◌, ◌≤◌, length, if◌then◌else◌, nat_eq};
ghost use Rattle.schema.specs.Texts.{group, line};
ghost use Rattle.schema.specs.Printing.{spliced, ones_from};
ghost use Rattle.schema.specs.Reports.{name_lines};

use crate::limits::LINE_BYTES;
use crate::lines::Line;

// The place goes beside the bytes. A writer that holds both would borrow the bytes, and each contract would have to tell
// what comes back of them.

/// Writes a line from `at` on.
// Each part goes to its place: with the line put together in one array first, printing a sheet takes twice as long.
pub(crate) fn put_line(bytes: &mut [u8], at: usize, parts: Line)
    requires { at + 14 ≤ length bytes.old }
    ensures { bytes.new ≡ spliced at (line parts.letter parts.a parts.b parts.n) bytes.old }
{
    let Line { letter, a, b, n } = parts;
    bytes[at] = letter;
    put_group(bytes, at + 1, a);
    put_group(bytes, at + 5, b);
    put_group(bytes, at + 9, n);
    bytes[at + 13] = b'\n';
}

/// Writes a line for each place of the table that holds 1, from `at` on, and answers where they end.
pub(crate) fn put_names(bytes: &mut [u8], at: usize, letter: u8, table: &[u8]) -> usize
    requires { (length table.now ≤ 64) × (at + 14 * length table.now ≤ length bytes.old) }
    ensures written { bytes.new ≡ spliced at (name_lines letter (ones_from 0 table.now)) bytes.old }
    ensures end { result ≡ at + length (name_lines letter (ones_from 0 table.now)) }
{
    // counted, since only some of the places get a line
    let mut end = at;
    for (k, byte) in table.iter().enumerate() {
        if *byte == 1 {
            let name = Line {
                letter,
                // a cast, since `try_from` would add an error that cannot come
                a: k as u16,
                b: 0,
                n: 0,
            };
            put_line(bytes, end, name);
            end += LINE_BYTES;
        }
    }
    end
}

// Writes the four columns of a number from `at` on.
fn put_group(bytes: &mut [u8], at: usize, n: u16)
    requires { (n ≤ 9999) × (at + 4 ≤ length bytes.old) }
    ensures { bytes.new ≡ spliced at (group n) bytes.old }
{
    bytes[at..at + 4].copy_from_slice(&group_of(n));
}

// The four columns of a number: its digits, blanks to their left. By hand, since `write!` can fail and a line cannot.
fn group_of(n: u16) -> [u8; 4]
    requires { n ≤ 9999 }
    ensures { result ≡ group n }
{
    let tens = n / 10;
    let hundreds = tens / 10;
    let thousands = hundreds / 10;
    [column(thousands), column(hundreds), column(tens), digit(n)]
}

// The last digit of a number, or a blank for 0.
fn column(v: u16) -> u8
    ensures { result ≡ (if nat_eq v 0 then 32 else 48 + v % 10) }
{
    if v == 0 { b' ' } else { digit(v) }
}

// The last digit of a number.
fn digit(v: u16) -> u8
    ensures { result ≡ 48 + v % 10 }
{
    // a cast, since `try_from` would add an error that cannot come
    b'0' + (v % 10) as u8
}
