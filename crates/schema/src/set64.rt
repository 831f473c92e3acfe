//! Sets of numbers below 64, as the bits of a word.
ghost use Rattle.std.specs.Prelude.{◌≡◌, ℕ, ◌*◌, ◌<◌, ◌≤◌};
ghost use Rattle.search.specs.Leads.{NextLink};
ghost use Rattle.schema.specs.Masks.{Member, Joins, Meet, Chosen, Strided, Unites};
ghost use Rattle.schema.specs.Verdicts.{Tells};

use std::marker::Model;

/// A set of numbers below 64.
// They are plain numbers, since rows, ranges and shifts make them, and a type of them would be made anew at each.
#[derive(Clone, Copy)]
pub(crate) struct Set64 {
    bits: u64,
}

impl Model for Set64 {
    ghost Value = { ℕ };

    ghost view = { λ s. s.bits };

    ghost inverse = { λ m. record { bits = m } };
}

impl Set64 {
    /// The set with no member.
    pub(crate) const EMPTY: Set64 = Set64 { bits: 0 };

    /// The set of the numbers below `end` that pass a test.
    pub(crate) fn of_those<F: Fn(usize) -> bool>(end: usize, test: F) -> Set64
        requires few { end ≤ 64 }
        requires callable { (k : ℕ) → k < end → F.pre test k }
        ensures { Chosen (F.post test) end result }
    {
        let mut found = Set64::EMPTY;
        // a loop, which is plainer than a fold: its closure would have to ask for a k below `end`, where `test` may be called
        for k in 0..end {
            if test(k) {
                found.insert(k);
            }
        }
        found
    }

    /// Adds a member.
    pub(crate) fn insert(&mut self, k: usize)
        requires { k < 64 }
        ensures { Joins self.old k self.new }
    {
        self.bits |= 1 << k;
    }

    /// Adds the members of another set.
    #[tactic(auto, using(std::proofs::lemmas::Nat::Bits::bit_at_or), unfolding(crate::specs::Masks::Member))]
    pub(crate) fn join(&mut self, other: Set64)
        ensures { Unites self.old other self.new }
    {
        self.bits |= other.bits;
    }

    /// Whether k is a member.
    #[tactic(auto, unfolding(crate::specs::Masks::Member))]
    pub(crate) fn has(self, k: usize) -> bool
        requires { k < 64 }
        ensures { Tells result (Member self k) }
    {
        (self.bits >> k) % 2 == 1
    }

    /// The lowest member from `from` on.
    pub(crate) fn next_from(self, from: usize) -> Option<usize>
        ensures { NextLink 64 (Member self) from result }
    {
        if from >= 64 {
            return None;
        }
        let rest = self.bits >> from;
        // a cast, since a usize has no From<u32>
        let found = from + rest.trailing_zeros() as usize;
        (found < 64).then_some(found)
    }

    /// Whether the sets have a member in common.
    pub(crate) fn meets(self, other: Set64) -> bool
        ensures { Tells result (Meet self other) }
    {
        self.bits & other.bits != 0
    }

    /// The lowest number from `at` on and below `end` that is STRIDE times a member and `offset` more.
    pub(crate) fn next_strided<const STRIDE: usize>(
        self,
        offset: usize,
        at: usize,
        end: usize,
    ) -> Option<usize>
        requires within { offset < STRIDE }
        requires few { STRIDE ≤ 64 }
        requires known { end ≤ STRIDE * 64 }
        ensures { NextLink end (Strided self STRIDE offset) at result }
    {
        if at >= end {
            return None;
        }
        let first = (at + (STRIDE - 1 - offset)) / STRIDE;
        let found = STRIDE * self.next_from(first)? + offset;
        (found < end).then_some(found)
    }
}
