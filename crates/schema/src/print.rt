//! Printing a sheet as a text, and the ways back.
ghost use Rattle.std.specs.Prelude.{◌≡◌, ◌+◌, ◌*◌, ◌≤◌, length};
ghost use Rattle.schema.specs.Prints.{Printed, ReadBack, Reprinted};
ghost use Rattle.schema.specs.Printing.{Begun};
ghost use Rattle.schema.specs.Texts.{text_of};

use crate::faults::{PrintFault, ReprintFault};
use crate::limits::LINE_BYTES;
use crate::lines::Line;
use crate::printing::put_line;
use crate::row::Row;
use crate::sheet::Sheet;
use crate::sound_sheet::SoundSheet;
use crate::text_sheet::TextSheet;

/// Writes the text of a sheet over the first bytes, and answers its length.
pub fn print<S: Sheet>(sheet: &S, bytes: &mut [u8]) -> Result<usize, PrintFault>
    ensures { Printed (S.Sheet.shows sheet.now) bytes.old result bytes.new }
{
    let copy = SoundSheet::of(sheet)?;
    if bytes.len() < LINE_BYTES * (copy.rows().len() + 1) {
        return Err(PrintFault::ShortBuffer);
    }
    Ok(put_text(bytes, &copy))
}

/// Prints a sheet and reads it back: unrefused, the same counts and rows.
pub fn read_back<S: Sheet>(sheet: &S, bytes: &mut [u8]) -> Result<TextSheet, PrintFault>
    ensures { ReadBack (S.Sheet.shows sheet.now) bytes.old result bytes.new }
{
    let len = print(sheet, bytes)?;
    let Ok(back) = TextSheet::read(&bytes[..len]) else {
        unreachable();
    };
    Ok(back)
}

/// Reads a text and prints it: unrefused, it is the same text again.
pub fn reprint(text: &[u8], bytes: &mut [u8]) -> Result<usize, ReprintFault>
    ensures { Reprinted text.now bytes.old result bytes.new }
{
    let sheet = TextSheet::read(text)?;
    // A text's rows are sound and few, so that only the room can be wanting.
    let Ok(len) = print(&sheet, bytes) else {
        return Err(ReprintFault::ShortBuffer);
    };
    Ok(len)
}

// Writes the header and a line for each row, and answers where they end.
fn put_text(bytes: &mut [u8], sheet: &SoundSheet) -> usize
    requires { 14 * (length sheet.now.rows.items + 1) ≤ length bytes.old }
    ensures { Begun (text_of sheet.now.counts.classes sheet.now.counts.arrows sheet.now.rows.items) bytes.old result bytes.new }
{
    let rows = sheet.rows();
    let header = Line {
        letter: b'H',
        a: sheet.counts.classes,
        b: sheet.counts.arrows,
        // a cast, since `try_from` would add an error that cannot come
        n: rows.len() as u16,
    };
    put_line(bytes, 0, header);
    // by number: after a loop over `chunks_exact_mut` nothing is known of what it wrote
    for (k, row) in rows.iter().enumerate() {
        let Row { letter, a, b, n } = *row;
        let parts = Line { letter, a, b, n };
        put_line(bytes, LINE_BYTES * (k + 1), parts);
    }
    LINE_BYTES * (rows.len() + 1)
}
