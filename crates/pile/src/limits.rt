//! The limits of layers.

/// The most rows that a trial layer has of its own.
pub const OWN_ROWS: usize = 32;

/// The most rows that a sheet can show.
pub const MOST_SHOWN: usize = 65535;

/// The most rows that a strike layer strikes.
pub const MOST_STRUCK: usize = 32;
