//! Any stack of layers over any sheet, and a call on any part of it.
ghost use Rattle.std.specs.Prelude.{◌≡◌, Bool, List, IfOk};
ghost use Rattle.pile.specs.Lives.{AtTop, Step};
ghost use Rattle.pile.specs.Plain.{Kind, fresh};

use crate::part::Part;
use crate::request::{Answer, Call};
use schema::sheet::Sheet;
use std::alloc::{AllocError, Global};

/// A pile is made over its lowest sheet with every layer new, and is then called, on any of its parts.
pub trait Pile: Part + Sized {
    /// The lowest sheet.
    type Lowest: Sheet;

    // the layers, the top one first
    ghost kinds: { List Kind };

    // whether the lowest sheet is a book
    ghost book: { Bool };

    /// Puts new layers over a sheet, which is let go where there is no memory for them.
    fn raise(heap: Global, lowest: Self::Lowest) -> Result<Self, AllocError>
        ensures { IfOk result (λ p. Self.Part.plain p ≡ fresh (Self.Lowest.Sheet.shows lowest) book kinds) };

    /// A call on the top part.
    fn answer(&mut self, call: Call) -> Answer
        ensures { AtTop (Self.Part.plain self.old) call result (Self.Part.plain self.new) };

    // Part and call come apart and not as a `Request`, since each pile asks of the part first and passes the call on.
    /// A call on any part, while the layers above it stay.
    fn call(&mut self, part: usize, call: Call) -> Answer
        ensures { Step (Self.Part.plain self.old) part call result (Self.Part.plain self.new) };
}

pub mod bases;
pub mod books;
mod common;
pub mod layers;
pub mod life;
