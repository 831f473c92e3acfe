//! A strike layer: the rows of the sheet below whose numbers are not struck.
ghost use Rattle.std.specs.Prelude.{◌≡◌, true};
ghost use Rattle.pile.specs.Standing.{rises};

use crate::layered::Layered;
use crate::limits::MOST_STRUCK;
use schema::reserved::Reserved;

/// A sheet, and a layer that hides some of its rows.
pub type Strike<S> = Layered<StruckRows, S>;

/// The numbers of the rows that are struck, in rising order.
#[derive(Drop)]
pub struct StruckRows {
    struck: Reserved<usize, MOST_STRUCK>,
    ghost rising: { rises struck.list.items ≡ true },
}

pub mod calls;
