// Tries the search on a web of five points.
ghost use Rattle.std.specs.Prelude.{◌≡◌, ◌+◌};
ghost use Rattle.std.proofs.Common.{rules};

use crate::breadth_first::{SearchFault, search};
use crate::web::Web;
use std::test::Fail;

// Five points, each with a link to the next but one.
struct Stairs;

impl Web for Stairs {
    ghost size = { λ _. 5 };

    ghost link = { λ _ i j. j ≡ i + 2 };

    ghost small = { Prim.search rules };

    fn points(&self) -> usize {
        5
    }

    fn next_link(&self, from: usize, at: usize) -> Option<usize> {
        if from < 3 && at <= from + 2 {
            Some(from + 2)
        } else {
            None
        }
    }
}

#[test]
fn marks_what_the_start_leads_to(rt: HostRuntime) -> Result<(), Fail> {
    let mut table = [9; 7];
    search(&Stairs, 1, &mut table)?;
    assert_eq!(rt; table, [0, 1, 0, 1, 0, 9, 9]);
    Ok(())
}

#[test]
fn marks_none_from_beyond_the_last_point(rt: HostRuntime) -> Result<(), Fail> {
    let mut table = [9; 6];
    search(&Stairs, 5, &mut table)?;
    assert_eq!(rt; table, [0, 0, 0, 0, 0, 9]);
    Ok(())
}

#[test]
fn refuses_a_short_table(rt: HostRuntime) {
    let mut table = [9; 4];
    assert_eq!(rt; search(&Stairs, 1, &mut table), Err(SearchFault::TooShort));
    assert_eq!(rt; table, [9; 4]);
    assert_eq!(rt; SearchFault::TooShort.number(), 22);
}
