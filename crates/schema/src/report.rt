//! The report on a text.
ghost use Rattle.std.specs.Prelude.{◌≡◌, ◌+◌, ◌≤◌, length, take};
ghost use Rattle.std.specs.List.{between};
ghost use Rattle.schema.specs.Printing.{ones_from, listing, Printable, Begun};
ghost use Rattle.schema.specs.Judgements.{SheetReported};
ghost use Rattle.schema.specs.Reports.{notice_line, Reported};
ghost use Rattle.schema.specs.TextSheets.{text_shows};

use crate::counts::Counts;
use crate::faults::{Notice, ReportFault};
use crate::limits::{LINE_BYTES, MOST_ARROWS, MOST_CLASSES};
use crate::lines::Line;
use crate::printing::{put_line, put_names};
use crate::tally::count_ones;
use crate::text_sheet::TextSheet;
use crate::verdict::verdict;

/// The bytes of the longest report: a line, and one for each class and each arrow.
pub const REPORT_BYTES: usize = LINE_BYTES * (1 + TABLE_BYTES);

// The bytes of a verdict's table: one for each class and each arrow. Casts, since a constant calls no `from`.
const TABLE_BYTES: usize = MOST_CLASSES as usize + MOST_ARROWS as usize;

/// Writes the report on a text over the first bytes, and answers its length.
///
/// It is one line that tells why the text or its verdict is refused,
/// or else a line with two counts and a line for each class and each arrow that is forced empty.
pub fn report(text: &[u8], bytes: &mut [u8]) -> Result<usize, ReportFault>
    ensures { Reported text.now bytes.old result bytes.new }
{
    if bytes.len() < REPORT_BYTES {
        return Err(ReportFault::ShortBuffer);
    }
    match TextSheet::read(text) {
        Ok(sheet) => Ok(judge(&sheet, bytes)),
        Err(fault) => Ok(refuse(bytes, Notice::from(fault))),
    }
}

// Writes the verdict on a sheet: the notice of its refusal, or what it lists.
fn judge(sheet: &TextSheet, bytes: &mut [u8]) -> usize
    requires { 1358 ≤ length bytes.old }
    ensures { SheetReported (text_shows sheet.now) bytes.old result bytes.new }
{
    let mut table = [0; TABLE_BYTES];
    match verdict(sheet, &mut table) {
        Ok(_) => list(bytes, sheet.counts, &table),
        Err(fault) => refuse(bytes, Notice::from(fault)),
    }
}

// Writes the notice of a refusal.
fn refuse(bytes: &mut [u8], notice: Notice) -> usize
    requires { (Printable notice) × (14 ≤ length bytes.old) }
    ensures { Begun (notice_line notice) bytes.old result bytes.new }
{
    let parts = Line {
        letter: b'!',
        a: notice.number,
        b: notice.first,
        n: notice.second,
    };
    put_line(bytes, 0, parts);
    LINE_BYTES
}

// Writes how many bytes of a table are 1 for the classes and for the arrows, and then their places.
fn list(bytes: &mut [u8], counts: Counts, table: &[u8; TABLE_BYTES]) -> usize
    requires { 1358 ≤ length bytes.old }
    ensures { Begun (listing (ones_from 0 (take counts.classes table.now)) (ones_from 0 (between counts.classes (counts.classes + counts.arrows) table.now))) bytes.old result bytes.new }
{
    let first = usize::from(counts.classes);
    let classes = &table[..first];
    let arrows = &table[first..counts.names()];
    // casts, since `try_from` would add an error that cannot come
    let class_count = count_ones(classes) as u16;
    let arrow_count = count_ones(arrows) as u16;
    let counts = Line {
        letter: b'V',
        a: class_count,
        b: arrow_count,
        n: 0,
    };
    put_line(bytes, 0, counts);
    let end = put_names(bytes, LINE_BYTES, b'C', classes);
    put_names(bytes, end, b'A', arrows)
}
