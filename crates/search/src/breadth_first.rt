// Marks the points that a start leads to, breadth first.
ghost use Rattle.std.specs.Prelude.{◌≡◌, ℕ, ◌<◌, length, replicate, slice_index};
ghost use Rattle.search.specs.Leads.{Marked};
ghost use Rattle.search.specs.Refusals.{search_number};
ghost use Rattle.search.specs.Searched.{Searched};
ghost use Rattle.search.specs.Trail.{Grows};

use crate::trail::Trail;
use crate::web::Web;
use thiserror::Error;

/// Why a search is refused.
#[derive(Clone, Copy, PartialEq, Eq, Debug, Error)]
pub enum SearchFault {
    /// The table has fewer bytes than the web has points.
    #[error("the table is too short")]
    TooShort,
}

impl SearchFault {
    /// The number of the refusal. A method, as a search knows no notice, and `u16::from` would not say which number it is.
    pub fn number(&self) -> u16
        ensures { result ≡ search_number self.now }
    {
        match self {
            SearchFault::TooShort => 22,
        }
    }
}

/// Marks each point that the start leads to by a 1, and each other point by a 0.
/// Leaves the bytes past the last point, and the whole table where it is too short.
pub fn search<W: Web>(web: &W, start: usize, table: &mut [u8]) -> Result<(), SearchFault>
    ensures { Searched (W.Web.size web.now) (W.Web.link web.now) start table.old result table.new }
{
    let n = web.points();
    if table.len() < n {
        return Err(SearchFault::TooShort);
    }
    let marks = &mut table[..n];
    marks.fill(0);
    if start < n {
        follow(web, start, marks);
    }
    Ok(())
}

// Marks every point that the start leads to, where no point is marked yet.
fn follow<W: Web>(web: &W, start: usize, marks: &mut [u8])
    requires within { start < W.Web.size web.now }
    requires size { length marks.old ≡ W.Web.size web.now }
    requires clear { marks.old ≡ replicate (length marks.old) 0 }
    ensures { Marked (W.Web.size web.now) (W.Web.link web.now) start marks.new }
{
    let mut trail = Trail::new(marks);
    trail.mark(start);
    while let Some(from) = trail.next() {
        visit(web, from, &mut trail);
    }
}

// Marks every point that a link from `from` leads to.
fn visit<W: Web>(web: &W, from: usize, trail: &mut Trail<'_>)
    requires { length trail.old.marks.now ≡ W.Web.size web.now }
    ensures same_reference { trail.new.marks.ghost_name ≡ trail.old.marks.ghost_name }
    ensures grows { Grows (W.Web.link web.now from) trail.old trail.new }
    ensures all { (k : ℕ) → k < W.Web.size web.now → W.Web.link web.now from k → slice_index trail.new.marks.now k ≡ 1 }
{
    // A cursor, since `next_link` answers from any place on. With `successors` no proof closed, as the check took no
    // invariant for a loop over it; an iterator of our own would hold the same cursor in a type more.
    let mut at = 0;
    while let Some(point) = web.next_link(from, at) {
        trail.mark(point);
        at = point + 1;
    }
}
