//! A row: what a schema says, in one letter and three numbers.

/// One letter and three numbers; what they mean is told by the letter (see `letters`).
#[derive(Clone, Copy, PartialEq, Eq, Debug, Default)]
pub struct Row {
    /// Any byte, since a row may be unsound; so code compares and matches it as a byte.
    pub letter: u8,
    pub a: u16,
    pub b: u16,
    pub n: u16,
}
