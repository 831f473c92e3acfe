//! The web of arrows, and the arrows that lead to two that clash.
ghost use Rattle.std.specs.Prelude.{◌<◌};
ghost use Rattle.schema.specs.Masks.{Gathers};
ghost use Rattle.schema.specs.Points.{Told};
ghost use Rattle.schema.specs.Keys.{Across, ArrowTorn};
ghost use Rattle.schema.specs.Verdicts.{Tells};
ghost use Rattle.std.proofs.Common.{rules};

use crate::clashes::torn;
use crate::marking::marks_from;
use crate::set64::Set64;
use crate::sound_sheet::SoundSheet;
use search::web::Web;

/// How many arrows there are at most.
pub(crate) const ARROWS: usize = 32;

/// The arrows that each arrow lies in.
#[derive(Clone, Copy)]
pub(crate) struct Arrows {
    pub(crate) overs: [Set64; ARROWS],
}

impl Web for Arrows {
    ghost size = { λ _. 32 };

    ghost link = { Across };

    ghost small = { Prim.search rules };

    fn points(&self) -> usize {
        ARROWS
    }

    fn next_link(&self, from: usize, at: usize) -> Option<usize> {
        if from >= ARROWS {
            return None;
        }
        self.overs[from].next_from(at).filter(|to| *to < ARROWS)
    }
}

/// The set of the arrows that lead to two that clash.
pub(crate) fn torn_arrows(sheet: &SoundSheet, arrows: &Arrows) -> Set64
    requires { Told 80 arrows.now.overs sheet.now.rows.items }
    ensures { Gathers (ArrowTorn sheet.now.rows.items) 32 result }
{
    Set64::of_those(ARROWS, |arrow| is_torn(sheet, arrows, arrow))
}

// Whether an arrow leads to two that clash. An arrow is a plain number, as the search wants it.
fn is_torn(sheet: &SoundSheet, arrows: &Arrows, arrow: usize) -> bool
    requires told { Told 80 arrows.now.overs sheet.now.rows.items }
    requires known { arrow < 32 }
    ensures { Tells result (ArrowTorn sheet.now.rows.items arrow) }
{
    let marks: [u8; ARROWS] = marks_from(arrows, arrow);
    torn::<Arrows>(sheet, &marks, &marks)
}
