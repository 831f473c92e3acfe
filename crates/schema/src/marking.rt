//! The table of what a point of a web leads to.
ghost use Rattle.std.specs.Prelude.{◌≤◌};
ghost use Rattle.search.specs.Leads.{Marked};

use search::breadth_first::search;
use search::web::Web;

/// A byte for each point, 1 where the start leads to it and else 0, as the search writes them.
pub(crate) fn marks_from<W: Web, const N: usize>(web: &W, start: usize) -> [u8; N]
    requires { W.Web.size web.now ≤ N }
    ensures { Marked (W.Web.size web.now) (W.Web.link web.now) start result }
{
    let mut marks = [0; N];
    let Ok(()) = search(web, start, &mut marks) else {
        unreachable();
    };
    marks
}
