//! Striking and restoring rows, and what a strike layer shows.
ghost use Rattle.std.specs.Prelude.{◌≡◌, ◌<◌, []};
ghost use Rattle.std.proofs.Common.{ap};
ghost use Rattle.pile.specs.Plain.{strike, strike_kind};
ghost use Rattle.pile.specs.Standing.{shifted};
ghost use Rattle.pile.specs.Strikes.{Restored, Struck, strike_bounded, struck_rows};

use super::{Strike, StruckRows};
use crate::faults::{RestoreFault, StrikeFault};
use crate::layer::Layer;
use crate::limits::MOST_SHOWN;
use crate::request::{Answer, Call};
use schema::faults::EnterFault;
use schema::reserved::Reserved;
use schema::row::Row;
use schema::sheet::Sheet;
use std::alloc::{AllocError, Global};

impl<S> Strike<S> {
    /// Takes back the strike of row k, whether there still is such a row or not.
    pub fn restore(&mut self, k: usize) -> Result<(), RestoreFault>
        ensures restored { Restored (struck_rows self.old) k result (struck_rows self.new) }
        ensures below { self.new.below ≡ self.old.below }
    {
        let Ok(at) = self.layer.struck.as_slice().binary_search(&k) else {
            return Err(RestoreFault::NotStruck);
        };
        self.layer.struck.remove(at);
        Ok(())
    }
}

impl<S: Sheet> Strike<S> {
    /// Strikes row k of the sheet below.
    pub fn strike(&mut self, k: usize) -> Result<(), StrikeFault>
        ensures struck { Struck (S.Sheet.shows self.old.below) (struck_rows self.old) k result (struck_rows self.new) }
        ensures below { self.new.below ≡ self.old.below }
    {
        if k >= self.below.len() {
            return Err(StrikeFault::NoSuchRow);
        }
        let Err(at) = self.layer.struck.as_slice().binary_search(&k) else {
            return Err(StrikeFault::StruckAlready);
        };
        let Ok(()) = self.layer.struck.insert(at, k) else {
            return Err(StrikeFault::TooManyStruck);
        };
        Ok(())
    }
}

impl Layer for StruckRows {
    ghost plain = { λ l. strike l.struck.list.items };

    ghost kind = { strike_kind };

    ghost is_new = { λ l. l.struck.list.items ≡ [] };

    ghost starts = { λ l e. ap strike e };

    ghost keeps = { λ l s. strike_bounded s l.struck.list.items };

    fn fresh(heap: Global) -> Result<StruckRows, AllocError> {
        let struck = Reserved::new(heap)?;
        Ok(StruckRows { struck })
    }

    fn capacity<S: Sheet>(&self, below: &S) -> usize {
        self.len(below)
    }

    fn len<S: Sheet>(&self, below: &S) -> usize {
        let below = below.len();
        let struck = self.struck.as_slice();
        below - struck.partition_point(|number| *number < below)
    }

    fn row<S: Sheet>(&self, below: &S, k: usize) -> Option<Row> {
        // no sheet shows so many rows, and the numbers stay small
        if k >= MOST_SHOWN {
            return None;
        }
        below.row(skip(self.struck.as_slice(), k))
    }

    fn enter<S: Sheet>(&mut self, _below: &S, _row: Row) -> Result<(), EnterFault> {
        Err(EnterFault::Full)
    }

    fn own_call<S: Sheet>(layered: &mut Strike<S>, call: Call) -> Result<Answer, Call> {
        match call {
            Call::Strike(k) => Ok(Answer::Struck(layered.strike(k))),
            Call::Restore(k) => Ok(Answer::Restored(layered.restore(k))),
            call => Err(call),
        }
    }
}

// The number below of the row that is shown at k.
fn skip(struck: &[usize], k: usize) -> usize
    requires { k < 65535 }
    ensures { result ≡ shifted k struck.now }
{
    struck
        .iter()
        .fold(k, |at, number| if *number <= at { at + 1 } else { at })
}
