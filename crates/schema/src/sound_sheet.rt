//! A sheet that is within the limits and sound, copied.
ghost use Rattle.std.specs.Prelude.{◌≡◌, ◌≤◌, length, MatchResult};
ghost use Rattle.std.proofs.Props.{props};
ghost use Rattle.schema.specs.Copies.{CopyOf, sound_prop};
ghost use Rattle.schema.specs.Rows.{AllSound};
ghost use Rattle.schema.specs.Verdicts.{SheetFaulty};
ghost use Rattle.arrayvec.specs.ArrayVec.{array_vec_len};

use crate::checks::check_sound;
use crate::counts::Counts;
use crate::faults::SheetFault;
use crate::limits::MOST_ROWS;
use crate::row::Row;
use crate::sheet::Sheet;
use arrayvec::ArrayVec;

/// The counts and rows of a sheet that is within the limits and sound.
#[derive(Drop)]
pub(crate) struct SoundSheet {
    pub(crate) counts: Counts,
    rows: ArrayVec<Row, MOST_ROWS>,
    ghost room: { array_vec_len rows ≤ 512 },
    ghost sound: { AllSound counts.classes counts.arrows rows.items } by { Prim.hlevel (props, sound_prop) },
}

impl SoundSheet {
    /// Copies a sheet, or says what is wrong with it.
    pub(crate) fn of<S: Sheet>(sheet: &S) -> Result<SoundSheet, SheetFault>
        ensures { let s = S.Sheet.shows sheet.now in MatchResult result (λ t. CopyOf s t.counts.classes t.counts.arrows t.rows.items) (λ f. SheetFaulty s.classes s.arrows s.rows f) }
    {
        let counts = Counts::within(sheet.classes(), sheet.arrows()).ok_or(SheetFault::OverLimits)?;
        if sheet.len() > MOST_ROWS {
            return Err(SheetFault::OverLimits);
        }
        let rows = copy_rows(sheet);
        check_sound(&rows, counts)?;
        Ok(SoundSheet { counts, rows })
    }

    /// The rows, which are sound for the limits too.
    pub(crate) fn rows(&self) -> &[Row]
        ensures same { result.now ≡ self.now.rows.items }
        ensures sound { AllSound 64 32 result.now }
    {
        self.rows.as_slice()
    }
}

// The rows of a sheet that has no more of them than there is room for.
fn copy_rows<S: Sheet>(sheet: &S) -> ArrayVec<Row, MOST_ROWS>
    requires { length (S.Sheet.shows sheet.now).rows ≤ 512 }
    ensures { result.items ≡ (S.Sheet.shows sheet.now).rows }
{
    let mut rows = ArrayVec::new();
    // by numbers, since a sheet shows one row at a time
    for k in 0..sheet.len() {
        if let Some(row) = sheet.row(k) {
            rows.push(row);
        }
    }
    rows
}
