//! Looking at a sheet.
ghost use Rattle.pile.specs.Lives.{Sees};

use crate::request::{Look, Sight};
use schema::question::question;
use schema::sheet::Sheet;
use schema::verdict::verdict;

/// What a look at a sheet tells.
pub(crate) fn see<S: Sheet>(sheet: &S, look: Look) -> Sight
    ensures { Sees (S.Sheet.shows sheet.now) look result }
{
    match look {
        Look::Counts => Sight::Counts(sheet.classes(), sheet.arrows()),
        Look::Capacity => Sight::Capacity(sheet.capacity()),
        Look::Len => Sight::Len(sheet.len()),
        Look::RowAt(k) => Sight::RowAt(sheet.row(k)),
        Look::Verdict(mut table) => {
            let ones = verdict(sheet, table.as_mut_slice());
            Sight::Judged(ones, table)
        }
        Look::Question(asked) => Sight::Asked(question(sheet, asked)),
    }
}
