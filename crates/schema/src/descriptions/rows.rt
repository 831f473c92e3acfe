//! The web of descriptions of a sheet.
ghost use Rattle.schema.specs.Points.{Built};

use super::Descriptions;
use super::class::Class;
use crate::arrows::Arrows;
use crate::set64::Set64;
use crate::sound_sheet::SoundSheet;

impl Descriptions {
    /// The web of a sheet.
    #[tactic(auto, using(crate::proofs::RowBounds::row_bounds))]
    pub(crate) fn of(sheet: &SoundSheet) -> Descriptions
        ensures { Built sheet.now.rows.items result }
    {
        let none = Class {
            supers: Set64::EMPTY,
            needs: Set64::EMPTY,
            counts: [0; 64],
        };
        let mut web = Descriptions {
            classes: [none; 64],
            domains: [Set64::EMPTY; 64],
            arrows: Arrows {
                overs: [Set64::EMPTY; 32],
            },
        };
        for row in sheet.rows() {
            let a = usize::from(row.a);
            let b = usize::from(row.b);
            // a byte, as `Row` has it
            match row.letter {
                b'S' => {
                    let class = &mut web.classes[a];
                    class.supers.insert(b);
                }
                b'D' => web.domains[a].insert(b),
                b'P' => web.arrows.overs[a].insert(b),
                b'F' => web.classes[a].need(b, row.n),
                _ => {}
            }
        }
        web
    }
}
