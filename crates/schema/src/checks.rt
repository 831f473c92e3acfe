//! The checks that the rows of a sheet pass before they are judged.
ghost use Rattle.std.specs.Prelude.{◌≤◌, length, MatchResult};
ghost use Rattle.schema.specs.Rows.{AllSound};
ghost use Rattle.schema.specs.Verdicts.{NoSharedCap, SheetFaulty, CheckFaulty};
ghost use Rattle.schema.specs.Checks.{Shared};

use crate::counts::Counts;
use crate::faults::{CheckFault, SheetFault};
use crate::letters::unsound_field;
use crate::row::Row;
use crate::set64::Set64;
use crate::sound_sheet::SoundSheet;

/// Checks that each of some rows, which are within the limit, is sound.
// Not inlined, so that `SoundSheet::of` stays small enough to be inlined; otherwise it hands up one more copy of the sheet.
#[inline(never)]
pub(crate) fn check_sound(rows: &[Row], counts: Counts) -> Result<(), SheetFault>
    requires { length rows.now ≤ 512 }
    ensures { MatchResult result (λ _. AllSound counts.classes counts.arrows rows.now) (λ f. SheetFaulty counts.classes counts.arrows rows.now f) }
{
    for (k, row) in rows.iter().enumerate() {
        if let Some(field) = unsound_field(*row, counts.classes, counts.arrows) {
            // a cast, since `try_from` would add an error that cannot come
            return Err(SheetFault::UnsoundRow {
                row: k as u16,
                field,
            });
        }
    }
    Ok(())
}

/// Checks that no cap of a sound sheet stands on an arrow that another leads to.
pub(crate) fn check_caps(sheet: &SoundSheet) -> Result<(), CheckFault>
    ensures { MatchResult result (λ _. NoSharedCap sheet.now.rows.items) (λ f. CheckFaulty sheet.now.counts.classes sheet.now.counts.arrows sheet.now.rows.items f) }
{
    let shared = shared_arrows(sheet);
    let rows = sheet.rows();
    for (k, row) in rows.iter().enumerate() {
        // a byte, as `Row` has it
        if row.letter == b'K' && shared.has(usize::from(row.b) / 2) {
            // a cast, since `try_from` would add an error that cannot come
            return Err(CheckFault::Capped { row: k as u16 });
        }
    }
    Ok(())
}

/// The set of the arrows that another arrow leads to. The last link of a way from elsewhere is a row of its own, so
/// the rows that lead straight to an arrow tell.
pub(crate) fn shared_arrows(sheet: &SoundSheet) -> Set64
    ensures { Shared sheet.now.rows.items result }
{
    let mut shared = Set64::EMPTY;
    // a loop, which is plainer than a fold: its closure would have to ask for a sound row, for the bound of insert
    for row in sheet.rows() {
        // a byte, as `Row` has it
        if row.letter == b'P' && row.a != row.b {
            shared.insert(usize::from(row.b));
        }
    }
    shared
}
