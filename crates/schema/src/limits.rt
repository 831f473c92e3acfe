//! The limits of texts and of what is judged.

/// The bytes of a line: a letter, three groups of four columns and a line feed.
pub const LINE_BYTES: usize = 14;

/// The most classes that a text may tell and that are judged.
pub const MOST_CLASSES: u16 = 64;

/// The most arrows that a text may tell and that are judged.
pub const MOST_ARROWS: u16 = 32;

/// The most rows that a text may tell and that are judged.
pub const MOST_ROWS: usize = 512;
