//! A layer over any pile.
ghost use Rattle.std.specs.Prelude.{◌∷◌};
ghost use Rattle.pile.specs.Plain.{over};
ghost use Rattle.pile.specs.Shown.{layer_parts};

use super::Pile;
use super::common::common_call;
use crate::layer::Layer;
use crate::layered::Layered;
use crate::part::Part;
use crate::request::{Answer, Call};
use schema::faults::EnterFault;
use schema::row::Row;
use schema::sheet::Sheet;
use std::alloc::{AllocError, Global};

impl<L: Layer, P: Part> Part for Layered<L, P> {
    ghost plain = { λ t. over (L.Layer.plain t.layer) (P.Part.plain t.below) };

    ghost under = { λ t. P.Sheet.shows t.below ∷ P.Part.under t.below };

    ghost agrees = { λ t. layer_parts (L.Layer.plain t.layer) (P.Part.plain t.below) (P.Part.agrees t.below) };

    fn height(&self) -> usize {
        self.below.height().saturating_add(1)
    }

    fn put(&mut self, row: Row) -> Result<(), EnterFault> {
        self.enter(row)
    }
}

impl<L: Layer, P: Pile + Drop> Pile for Layered<L, P> {
    type Lowest = P::Lowest;

    ghost kinds = { L.Layer.kind ∷ P.Pile.kinds };

    ghost book = { P.Pile.book };

    fn raise(heap: Global, lowest: P::Lowest) -> Result<Layered<L, P>, AllocError> {
        let below = P::raise(heap, lowest)?;
        let layered = Layered::new(heap, below)?;
        Ok(layered)
    }

    fn answer(&mut self, call: Call) -> Answer {
        match L::own_call(self, call) {
            Ok(answer) => answer,
            Err(call) => common_call(self, call),
        }
    }

    fn call(&mut self, part: usize, call: Call) -> Answer {
        let below = self.below.height();
        match part.saturating_sub(below) {
            0 => self.below.call(part, call),
            1 => self.answer(call),
            _ => Answer::NoPart(call),
        }
    }
}
