//! The calls that every part has.
ghost use Rattle.pile.specs.Lives.{Common};

use crate::loading::load_part;
use crate::looks::see;
use crate::part::Part;
use crate::request::{Answer, Call};

/// Enters a row, loads a text or looks at the part, and gives any other call back.
pub(crate) fn common_call<P: Part>(part: &mut P, call: Call) -> Answer
    ensures { Common (P.Part.plain part.old) call result (P.Part.plain part.new) }
{
    match call {
        Call::Enter(row) => Answer::Entered(part.put(row)),
        Call::Load(text) => {
            let loaded = load_part(part, text.as_slice());
            Answer::Loaded(loaded, text)
        }
        Call::Look(look) => Answer::Seen(see(&*part, look)),
        call => Answer::NotHere(call),
    }
}
