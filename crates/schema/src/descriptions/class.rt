//! What the rows say of a class.
ghost use Rattle.std.specs.Prelude.{◌≡◌, ℕ, ◌+◌, ◌*◌, ◌<◌, ◌⊎◌, slice_index};

use super::{POINTS, lower};
use crate::set64::Set64;

/// Where a class leads. Its counts are below 32, as those of sound rows are, so that each is the number of a mark.
#[derive(Clone, Copy)]
pub(crate) struct Class {
    // the classes that it lies in
    pub(crate) supers: Set64,
    // the ends that it needs
    pub(crate) needs: Set64,
    // of an end: how often the class needs it, at most. Bytes, since a web with its 64 classes stands on the stack.
    pub(crate) counts: [u8; 64],
    ghost few: { (e : ℕ) → slice_index counts e < 32 },
}

impl Class {
    ghost use Rattle.search.specs.Leads.{NextLink};
    ghost use Rattle.schema.specs.Masks.{Joins, Strided};
    ghost use Rattle.schema.specs.Points.{Raised, ToNeeds};

    /// Adds a need.
    pub(crate) fn need(&mut self, end: usize, times: u16)
        requires place { end < 64 }
        requires few { times < 32 }
        ensures supers { self.new.supers ≡ self.old.supers }
        ensures needs { Joins self.old.needs end self.new.needs }
        ensures counts { Raised self.old.counts end times self.new.counts }
    {
        self.needs.insert(end);
        // a cast, since `try_from` would add an error that cannot come
        self.counts[end] = self.counts[end].max(times as u8);
    }

    /// The lowest point from `at` on that the class links to.
    pub(crate) fn next_link(&self, at: usize) -> Option<usize>
        ensures { NextLink 2048 (λ j. Strided self.now.supers 32 0 j ⊎ ToNeeds self.now.needs self.now.counts j) at result }
    {
        let up = self.supers.next_strided::<32>(0, at, POINTS);
        let need = self.next_need(at);
        lower(up, need)
    }

    // The lowest mark from `at` on that the class needs.
    fn next_need(&self, at: usize) -> Option<usize>
        ensures { NextLink 2048 (ToNeeds self.now.needs self.now.counts) at result }
    {
        let first = self.need_at(self.needs.next_from(at / 32)?);
        if first >= at {
            return Some(first);
        }
        Some(self.need_at(self.needs.next_from(at / 32 + 1)?))
    }

    // The point of the mark that the class needs at an end.
    fn need_at(&self, end: usize) -> usize
        requires { end < 64 }
        ensures is { result ≡ 32 * end + slice_index self.now.counts end }
        ensures near { result < 32 * end + 32 }
    {
        32 * end + usize::from(self.counts[end])
    }
}
