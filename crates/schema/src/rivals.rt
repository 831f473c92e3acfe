//! The classes that clash with each class, by an X or a K row.
ghost use Rattle.std.specs.Prelude.{◌<◌};
ghost use Rattle.schema.specs.Masks.{Gathers};
ghost use Rattle.schema.specs.Points.{count, counts_of};
ghost use Rattle.schema.specs.Keys.{RivalSets, TornSets};
ghost use Rattle.schema.specs.Verdicts.{Tells};

use crate::descriptions::Descriptions;
use crate::set64::Set64;
use crate::sound_sheet::SoundSheet;

/// Lists for each class those whose members cannot be in it: one by an X row, and by a K row all that need more than
/// the cap.
#[tactic(auto, using(crate::proofs::RowBounds::row_bounds))]
pub(crate) fn list_rivals(sheet: &SoundSheet, links: &Descriptions) -> [Set64; 64]
    ensures { RivalSets links.now sheet.now.rows.items result }
{
    let mut rivals = [Set64::EMPTY; 64];
    for row in sheet.rows() {
        let a = usize::from(row.a);
        let b = usize::from(row.b);
        // a byte, as `Row` has it
        match row.letter {
            b'X' => rivals[a].insert(b),
            // a cast, since `try_from` would add an error that cannot come
            b'K' => rivals[a].join(needing_more(links, b, row.n as u8)),
            _ => {}
        }
    }
    rivals
}

fn needing_more(links: &Descriptions, end: usize, cap: u8) -> Set64
    requires { end < 64 }
    ensures { Gathers (λ a. cap < count (counts_of links.now.classes) a end) 64 result }
{
    let classes = &links.classes;
    Set64::of_those(
        64,
        |a|
            requires { (a < 64) × (end < 64) }
        { classes[a].counts[end] > cap },
    )
}

/// Whether a class and one of its rivals are both in a set of classes.
pub(crate) fn torn_sets(rivals: &[Set64; 64], classes: Set64) -> bool
    ensures { Tells result (TornSets rivals.now classes) }
{
    (0..64).any(
        |class|
            requires { class < 64 }
        { classes.has(class) && rivals[class].meets(classes) },
    )
}
