//! A schema: what a sheet that passes the checks says.
ghost use Rattle.std.specs.Prelude.{MatchResult};
ghost use Rattle.schema.specs.Copies.{CopyOf};
ghost use Rattle.schema.specs.Verdicts.{NoSharedCap, CheckFaulty};

use crate::checks::check_caps;
use crate::faults::CheckFault;
use crate::sheet::Sheet;
use crate::sound_sheet::SoundSheet;

/// A sound sheet with no cap on an arrow that another leads to.
#[derive(Drop)]
pub(crate) struct Schema {
    pub(crate) sheet: SoundSheet,
    ghost uncapped: { NoSharedCap sheet.rows.items },
}

impl Schema {
    /// Copies a sheet, or says what is wrong with it.
    pub(crate) fn of<S: Sheet>(sheet: &S) -> Result<Schema, CheckFault>
        ensures { let s = S.Sheet.shows sheet.now in MatchResult result (λ t. CopyOf s t.sheet.counts.classes t.sheet.counts.arrows t.sheet.rows.items) (λ f. CheckFaulty s.classes s.arrows s.rows f) }
    {
        let sheet = SoundSheet::of(sheet)?;
        check_caps(&sheet)?;
        Ok(Schema { sheet })
    }
}
