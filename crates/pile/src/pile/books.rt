//! A book as the lowest sheet of a pile.
ghost use Rattle.std.specs.Prelude.{true, []};
ghost use Rattle.schema.specs.Books.{book_shows};
ghost use Rattle.pile.specs.Plain.{alone};
ghost use Rattle.std.proofs.Common.{rules};

use super::Pile;
use super::common::common_call;
use crate::part::Part;
use crate::request::{Answer, Call};
use schema::book::Book;
use schema::faults::EnterFault;
use schema::row::Row;
use schema::sheet::Sheet;
use std::alloc::{AllocError, Global};

impl Part for Book {
    ghost plain = { λ b. alone (book_shows b) true };

    ghost under = { λ _. [] };

    ghost agrees = { Prim.search rules };

    fn height(&self) -> usize {
        0
    }

    fn put(&mut self, row: Row) -> Result<(), EnterFault> {
        self.enter(row)
    }
}

impl Pile for Book {
    type Lowest = Book;

    ghost kinds = { [] };

    ghost book = { true };

    fn raise(_heap: Global, lowest: Book) -> Result<Book, AllocError> {
        Ok(lowest)
    }

    fn answer(&mut self, call: Call) -> Answer {
        match call {
            Call::Amend(k, row) => Answer::Amended(self.amend(k, row)),
            call => common_call(self, call),
        }
    }

    // one function for this call of every lowest sheet would lead back to the impl that calls it, and gets no proof
    fn call(&mut self, part: usize, call: Call) -> Answer {
        if part > 0 {
            Answer::NoPart(call)
        } else {
            self.answer(call)
        }
    }
}
