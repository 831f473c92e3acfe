//! The check of a text.
ghost use Rattle.std.specs.Prelude.{ℕ, List, MatchResult};
ghost use Rattle.schema.specs.declared.row.Row.{Row};
ghost use Rattle.schema.specs.Texts.{IsText, TextFaulty};

use crate::faults::TextFault;
use crate::text_sheet::TextSheet;

/// Whether a text is in form and sound, and otherwise the first thing that is wrong with it.
pub fn check_text(text: &[u8]) -> Result<(), TextFault>
    ensures { MatchResult result (λ _. (c : ℕ) × (p : ℕ) × (rows : List Row) × IsText text.now c p rows) (λ f. TextFaulty text.now f) }
{
    let _sheet = TextSheet::read(text)?;
    Ok(())
}
