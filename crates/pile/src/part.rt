//! A part of a pile, with all that lies below it.
ghost use Rattle.std.specs.Prelude.{◌≡◌, min, List, ◌∷◌, length};
ghost use Rattle.pile.specs.Lives.{Entering};
ghost use Rattle.pile.specs.Plain.{Plain, parts};
ghost use Rattle.schema.specs.Sheets.{Shown};

use schema::faults::EnterFault;
use schema::row::Row;
use schema::sheet::Sheet;

/// A sheet that stands for a plain pile, of which it is the top part.
pub trait Part: Sheet {
    ghost plain: { Self → Plain };

    // what the parts below show, the upper one first
    ghost under: { Self → List Shown };

    /// The number of layers, or the largest number there is.
    fn height(&self) -> usize
        ensures { result ≡ min (length (plain self.now).layers) 18446744073709551615 };

    /// Enters a row, and tells what becomes of the plain pile; `enter` tells only what is shown.
    fn put(&mut self, row: Row) -> Result<(), EnterFault>
        ensures { Entering (plain self.old) row result (plain self.new) };

    // each part shows what it has in the plain pile
    ghost agrees: { (s : Self) → Self.Sheet.shows s ∷ under s ≡ parts (plain s) };
}
