//! What is said of a drawing.

use schema::faults::Notice;

/// What the verdict or the question says.
#[derive(Clone, Copy, PartialEq, Eq, Debug)]
pub enum Told {
    /// The verdict's table: a byte for each class and then for each arrow, 1 where it is forced empty.
    Table([u8; 6]),
    Answer(bool),
    Refusal(Notice),
}
