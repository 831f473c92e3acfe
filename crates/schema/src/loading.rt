//! Loading a text into a sheet.
ghost use Rattle.std.specs.Prelude.{◌≡◌, ◌+◌, ◌≤◌, ◌++◌, length};
ghost use Rattle.schema.specs.Loading.{Admitted, Loaded};
ghost use Rattle.schema.specs.Sheets.{with_rows};

use crate::faults::LoadFault;
use crate::row::Row;
use crate::sheet::Sheet;
use crate::text_sheet::TextSheet;

/// Enters all rows of a text in their order, or says why the sheet stays as it was.
pub fn load<S: Sheet>(sheet: &mut S, text: &[u8]) -> Result<(), LoadFault>
    ensures { Loaded (S.Sheet.shows sheet.old) text.now result (S.Sheet.shows sheet.new) }
{
    let told = admit(&*sheet, text)?;
    enter_all(sheet, told.rows());
    Ok(())
}

/// What a text tells, where all of it may be loaded into a sheet.
pub fn admit<S: Sheet>(sheet: &S, text: &[u8]) -> Result<TextSheet, LoadFault>
    ensures { Admitted (S.Sheet.shows sheet.now) text.now result }
{
    let told = TextSheet::read(text)?;
    if told.classes() > sheet.classes() || told.arrows() > sheet.arrows() {
        return Err(LoadFault::MoreNames);
    }
    if sheet.len() + told.len() > sheet.capacity() {
        return Err(LoadFault::NoRoom);
    }
    Ok(told)
}

// Enters rows for which there is room.
fn enter_all<S: Sheet>(sheet: &mut S, rows: &[Row])
    requires { length (S.Sheet.shows sheet.old).rows + length rows.now ≤ (S.Sheet.shows sheet.old).capacity }
    ensures { S.Sheet.shows sheet.new ≡ with_rows (S.Sheet.shows sheet.old) ((S.Sheet.shows sheet.old).rows ++ rows.now) }
{
    for row in rows {
        sheet.enter(*row).unwrap();
    }
}
