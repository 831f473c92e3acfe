//! The web of descriptions: classes, and marks that say "end e at least m times".
//!
//! Point 32·a is class a, and point 32·e + m is the mark (e, m), for m from 1 to 31. The web leaves out links that
//! others make up for: a mark links down by one step at a time, and a class only to the highest of its marks at an
//! end. It leads to the same points, over far fewer links.
ghost use Rattle.std.specs.Prelude.{◌≡◌, ◌+◌, ◌*◌, ◌/◌, ◌%◌, ◌<◌, ◌≤◌};
ghost use Rattle.search.specs.Leads.{NextLink};
ghost use Rattle.schema.specs.Masks.{Lower};
ghost use Rattle.schema.specs.Points.{Ways, Onward};
ghost use Rattle.std.proofs.Common.{rules};

use crate::arrows::Arrows;
use crate::set64::Set64;
use class::Class;
use search::web::Web;

/// How many points there are, whatever the counts of the schema.
pub(crate) const POINTS: usize = 2048;

/// The links of some rows.
#[derive(Drop)]
pub(crate) struct Descriptions {
    pub(crate) classes: [Class; 64],
    // of an end: the classes that what has it lies in
    pub(crate) domains: [Set64; 64],
    pub(crate) arrows: Arrows,
}

impl Web for Descriptions {
    ghost size = { λ _. 2048 };

    ghost link = { Onward };

    ghost small = { Prim.search rules };

    fn points(&self) -> usize {
        POINTS
    }

    fn next_link(&self, from: usize, at: usize) -> Option<usize> {
        if from >= POINTS {
            return None;
        }
        let place = from / 32;
        let times = from % 32;
        if times == 0 {
            self.classes[place].next_link(at)
        } else {
            self.from_mark(place, times, at)
        }
    }
}

impl Descriptions {
    // The lowest point from `at` on that the mark (end, times) links to.
    fn from_mark(&self, end: usize, times: usize, at: usize) -> Option<usize>
        requires place { end < 64 }
        requires mark { (1 ≤ times) × (times < 32) }
        ensures { NextLink 2048 (Ways self.now end times) at result }
    {
        let along = self.arrows.overs[end / 2].next_strided::<64>(
            32 * (end % 2) + times,
            at,
            POINTS,
        );
        let other = if times == 1 {
            self.domains[end].next_strided::<32>(0, at, POINTS)
        } else {
            not_below(32 * end + times - 1, at)
        };
        lower(along, other)
    }
}

// The point itself, unless it lies below `at`.
fn not_below(point: usize, at: usize) -> Option<usize>
    requires { point < 2048 }
    ensures { NextLink 2048 (λ j. j ≡ point) at result }
{
    (point >= at).then_some(point)
}

// The lower of two points that may be missing.
fn lower(one: Option<usize>, two: Option<usize>) -> Option<usize>
    ensures { Lower one two result }
{
    match (one, two) {
        (Some(x), Some(y)) => Some(x.min(y)),
        (None, _) => two,
        (_, None) => one,
    }
}

mod class;
mod rows;
