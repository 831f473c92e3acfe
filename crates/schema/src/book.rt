//! A book: a sheet of up to 384 rows, held in memory.
use self::calls::BOOK_ROWS;
use crate::counts::Counts;
use crate::reserved::Reserved;
use crate::row::Row;

/// Two counts and up to 384 rows.
#[derive(Drop)]
pub struct Book {
    counts: Counts,
    rows: Reserved<Row, BOOK_ROWS>,
}

pub mod calls;
