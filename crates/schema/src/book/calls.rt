//! Making a book, setting it up, amending it, and what it shows.
ghost use Rattle.std.specs.Prelude.{◌≡◌, [], IfOk};
ghost use Rattle.schema.specs.Books.{Amended, SetUp, book_bounded, book_shows, unset};

use super::Book;
use crate::counts::Counts;
use crate::faults::{AmendFault, EnterFault, SetUpFault};
use crate::reserved::Reserved;
use crate::row::Row;
use crate::sheet::Sheet;
use std::alloc::{AllocError, Global};

/// The capacity of every book.
pub const BOOK_ROWS: usize = 384;

impl Book {
    /// A book that is not yet set up: no classes, no arrows, no rows, and its full capacity.
    pub fn new(heap: Global) -> Result<Book, AllocError>
        ensures { IfOk result (λ b. book_shows b ≡ unset) }
    {
        let rows = Reserved::new(heap)?;
        Ok(Book {
            counts: Counts::NONE,
            rows,
        })
    }

    /// Begins a new sheet with these counts and no rows.
    pub fn set_up(&mut self, classes: u16, arrows: u16) -> Result<(), SetUpFault>
        ensures { SetUp (book_shows self.old) classes arrows result (book_shows self.new) }
    {
        self.counts = Counts::within(classes, arrows).ok_or(SetUpFault::TooMany)?;
        self.rows.clear();
        Ok(())
    }

    /// Replaces row k, where there is one.
    pub fn amend(&mut self, k: usize, row: Row) -> Result<(), AmendFault>
        ensures { Amended (book_shows self.old) k row result (book_shows self.new) }
    {
        let old = self.rows.get_mut(k).ok_or(AmendFault::NoRow)?;
        *old = row;
        Ok(())
    }
}

impl Sheet for Book {
    ghost shows = { book_shows };

    ghost bounded = { book_bounded };

    fn classes(&self) -> u16 {
        self.counts.classes
    }

    fn arrows(&self) -> u16 {
        self.counts.arrows
    }

    fn capacity(&self) -> usize {
        BOOK_ROWS
    }

    fn len(&self) -> usize {
        self.rows.len()
    }

    fn row(&self, k: usize) -> Option<Row> {
        self.rows.as_slice().get(k).copied()
    }

    fn enter(&mut self, row: Row) -> Result<(), EnterFault> {
        self.rows.push(row).map_err(|_| EnterFault::Full)
    }
}
