//! What a layer keeps, and what it makes of the sheet below.
ghost use Rattle.std.specs.Prelude.{◌≡◌, length, IfOk};
ghost use Rattle.std.specs.List.{slice_get};
ghost use Rattle.schema.specs.Sheets.{Shown, Bounded};
ghost use Rattle.pile.specs.Plain.{Layer as PlainLayer, Kind, fresh_layer, shown_by};
ghost use Rattle.pile.specs.Layers.{LayerEntered, OwnCall};

use crate::layered::Layered;
use crate::request::{Answer, Call};
use schema::faults::EnterFault;
use schema::row::Row;
use schema::sheet::Sheet;
use std::alloc::{AllocError, Global};

/// What lies over a sheet: it stands for a layer of the plain pile, over whatever sheet it is asked of.
pub trait Layer: Sized {
    ghost plain: { Self → PlainLayer };

    ghost kind: { Kind };

    // what holds of a layer when it is made: it stands for a new one
    ghost is_new: { Self → Type 0 };

    ghost starts: { (l : Self) → is_new l → plain l ≡ fresh_layer kind };

    // over a sheet it keeps the laws of every sheet
    ghost keeps: { (l : Self) (s : Shown) → Bounded s → Bounded (shown_by (plain l) s) };

    /// A new layer, with memory for all that it may come to hold.
    fn fresh(heap: Global) -> Result<Self, AllocError>
        ensures { IfOk result (λ l. is_new l) };

    /// The most rows that the sheet with this layer over it can show.
    fn capacity<S: Sheet>(&self, below: &S) -> usize
        ensures { result ≡ (shown_by (plain self.now) (S.Sheet.shows below.now)).capacity };

    /// The number of rows that it shows.
    fn len<S: Sheet>(&self, below: &S) -> usize
        ensures { result ≡ length (shown_by (plain self.now) (S.Sheet.shows below.now)).rows };

    /// Row k of those that it shows, for any k.
    fn row<S: Sheet>(&self, below: &S, k: usize) -> Option<Row>
        ensures { result ≡ slice_get (shown_by (plain self.now) (S.Sheet.shows below.now)).rows k };

    /// Puts a row at the end, where the layer has room for it.
    fn enter<S: Sheet>(&mut self, below: &S, row: Row) -> Result<(), EnterFault>
        ensures { LayerEntered (plain self.old) (S.Sheet.shows below.now) row result (plain self.new) };

    /// A call that only such a layer has; any other comes back.
    fn own_call<S: Sheet>(layered: &mut Layered<Self, S>, call: Call) -> Result<Answer, Call>
        ensures told { OwnCall (plain layered.old.layer) (S.Sheet.shows layered.old.below) call result (plain layered.new.layer) }
        ensures below { layered.new.below ≡ layered.old.below };
}
