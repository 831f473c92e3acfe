//! Any sheet but a book as the lowest sheet of a pile.
ghost use Rattle.std.specs.Prelude.{false, []};
ghost use Rattle.pile.specs.Plain.{alone};
ghost use Rattle.std.proofs.Common.{rules};

use super::Pile;
use super::common::common_call;
use crate::part::Part;
use crate::request::{Answer, Call};
use schema::faults::EnterFault;
use schema::row::Row;
use schema::sheet::Sheet;
use std::alloc::{AllocError, Global};

/// Any sheet but a book, as the lowest of a pile. It is a type of its own, since impls for every sheet would be impls for
/// books and layered sheets too.
#[derive(Drop)]
pub struct Base<S> {
    pub sheet: S,
}

impl<S: Sheet> Sheet for Base<S> {
    ghost shows = { λ b. S.Sheet.shows b.sheet };

    ghost bounded = { λ b. S.Sheet.bounded b.sheet };

    fn classes(&self) -> u16 {
        self.sheet.classes()
    }

    fn arrows(&self) -> u16 {
        self.sheet.arrows()
    }

    fn capacity(&self) -> usize {
        self.sheet.capacity()
    }

    fn len(&self) -> usize {
        self.sheet.len()
    }

    fn row(&self, k: usize) -> Option<Row> {
        self.sheet.row(k)
    }

    fn enter(&mut self, row: Row) -> Result<(), EnterFault> {
        self.sheet.enter(row)
    }
}

impl<S: Sheet> Part for Base<S> {
    ghost plain = { λ b. alone (S.Sheet.shows b.sheet) false };

    ghost under = { λ _. [] };

    ghost agrees = { Prim.search rules };

    fn height(&self) -> usize {
        0
    }

    fn put(&mut self, row: Row) -> Result<(), EnterFault> {
        self.sheet.enter(row)
    }
}

impl<S: Sheet> Pile for Base<S> {
    type Lowest = S;

    ghost kinds = { [] };

    ghost book = { false };

    fn raise(_heap: Global, lowest: S) -> Result<Base<S>, AllocError> {
        Ok(Base { sheet: lowest })
    }

    fn answer(&mut self, call: Call) -> Answer {
        common_call(self, call)
    }

    // one function for this call of every lowest sheet would lead back to the impl that calls it, and gets no proof
    fn call(&mut self, part: usize, call: Call) -> Answer {
        if part > 0 {
            Answer::NoPart(call)
        } else {
            self.answer(call)
        }
    }
}
