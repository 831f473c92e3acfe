//! Withdrawing a trial layer's rows, and what it shows.
ghost use Rattle.std.specs.Prelude.{◌≡◌, [], length};
ghost use Rattle.std.proofs.Common.{ap};
ghost use Rattle.pile.specs.Plain.{trial, trial_kind};
ghost use Rattle.pile.specs.Trials.{own_rows, trial_bounded};

use super::{OwnRows, Trial};
use crate::layer::Layer;
use crate::limits::{MOST_SHOWN, OWN_ROWS};
use crate::request::{Answer, Call};
use schema::faults::EnterFault;
use schema::reserved::Reserved;
use schema::row::Row;
use schema::sheet::Sheet;
use std::alloc::{AllocError, Global};

impl<S> Trial<S> {
    /// Drops the layer's own rows, and answers their number.
    pub fn withdraw(&mut self) -> usize
        ensures answer { result ≡ length (own_rows self.old) }
        ensures own { own_rows self.new ≡ [] }
        ensures below { self.new.below ≡ self.old.below }
    {
        let number = self.layer.own.len();
        self.layer.own.clear();
        number
    }
}

impl Layer for OwnRows {
    ghost plain = { λ l. trial l.own.list.items };

    ghost kind = { trial_kind };

    ghost is_new = { λ l. l.own.list.items ≡ [] };

    ghost starts = { λ l e. ap trial e };

    ghost keeps = { trial_bounded };

    fn fresh(heap: Global) -> Result<OwnRows, AllocError> {
        let own = Reserved::new(heap)?;
        Ok(OwnRows { own })
    }

    fn capacity<S: Sheet>(&self, below: &S) -> usize {
        (below.len() + OWN_ROWS).min(MOST_SHOWN)
    }

    fn len<S: Sheet>(&self, below: &S) -> usize {
        (below.len() + self.own.len()).min(MOST_SHOWN)
    }

    fn row<S: Sheet>(&self, below: &S, k: usize) -> Option<Row> {
        if k >= MOST_SHOWN {
            return None;
        }
        let first = below.len();
        if k < first {
            below.row(k)
        } else {
            self.own.as_slice().get(k - first).copied()
        }
    }

    fn enter<S: Sheet>(&mut self, below: &S, row: Row) -> Result<(), EnterFault> {
        if self.len(below) >= self.capacity(below) {
            return Err(EnterFault::Full);
        }
        self.own.push(row).unwrap();
        Ok(())
    }

    fn own_call<S: Sheet>(layered: &mut Trial<S>, call: Call) -> Result<Answer, Call> {
        match call {
            Call::Withdraw => Ok(Answer::Withdrawn(layered.withdraw())),
            call => Err(call),
        }
    }
}
