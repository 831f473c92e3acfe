//! A sheet that was read from a text.
ghost use Rattle.std.specs.Prelude.{◌≤◌};
ghost use Rattle.arrayvec.specs.ArrayVec.{array_vec_len};

use crate::counts::Counts;
use crate::limits::MOST_ROWS;
use crate::row::Row;
use arrayvec::ArrayVec;

/// What a text tells. The sheet owns what it read, and no row can be entered into it.
#[derive(Drop)]
pub struct TextSheet {
    pub(crate) counts: Counts,
    rows: ArrayVec<Row, MOST_ROWS>,
    ghost room: { array_vec_len rows ≤ 512 },
}

pub mod reading;
