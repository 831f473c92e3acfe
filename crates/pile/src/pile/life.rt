//! The whole life of a pile: it is made, and then called any number of times.
ghost use Rattle.std.specs.Prelude.{◌∷◌, IfOk};
ghost use Rattle.pile.specs.Lives.{WholeLife};

use super::Pile;
use crate::request::{Answer, Request};
use std::alloc::{AllocError, Global};

/// Makes a pile over a sheet, makes the calls in their order, and gives the pile and the answers. Where there is no
/// memory for the layers or the answers, no call is made.
pub fn live<P: Pile + Drop>(
    heap: Global,
    lowest: P::Lowest,
    requests: Vec<Request>,
) -> Result<(P, Vec<Answer>), AllocError>
    ensures { IfOk result (λ x. WholeLife P P.Part.plain (λ p. P.Sheet.shows p ∷ P.Part.under p) (P.Lowest.Sheet.shows lowest) P.Pile.book P.Pile.kinds requests.items x.1.items x.0) }
{
    let mut pile = P::raise(heap, lowest)?;
    let mut answers = Vec::with_capacity(heap, requests.len())?;
    for request in requests {
        let Request { part, call } = request;
        answers.push_reserved(pile.call(part, call));
    }
    Ok((pile, answers))
}
