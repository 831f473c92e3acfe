//! A trial layer: the rows of the sheet below, and then up to 32 of its own.
use crate::layered::Layered;
use crate::limits::OWN_ROWS;
use schema::reserved::Reserved;
use schema::row::Row;

/// A sheet, and rows on trial above it.
pub type Trial<S> = Layered<OwnRows, S>;

/// The rows of a trial layer's own.
#[derive(Drop)]
pub struct OwnRows {
    own: Reserved<Row, OWN_ROWS>,
}

pub mod calls;
