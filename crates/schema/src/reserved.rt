//! Lists whose memory is reserved when they are made.
ghost use Rattle.std.specs.Borrow.{sem, LendsIf};
ghost use Rattle.std.specs.Vec.{with_item};
ghost use Rattle.std.specs.List.{ItemMut};
ghost use Rattle.std.specs.Prelude.{◌≡◌, ◌<◌, ◌≤◌, ◌⊎◌, [], ◌∷◌, ◌++◌, length, vec_len, vec_capacity, insert, remove, IfOk, MatchOption, MatchResult, slice_index_or};

use std::alloc::{AllocError, Global};

/// A list of at most N items. The memory for all of them is reserved when the list is made, so that no later call can
/// fail for want of it.
#[derive(Drop)]
pub struct Reserved<T, const N: usize> {
    list: Vec<T>,
    ghost room: { (vec_len list ≤ N) × (N ≤ vec_capacity list) },
}

impl<T: Drop, const N: usize> Reserved<T, N> {
    ghost use Rattle.schema.specs.contracts.reserved.Reserved.{the_row};

    /// An empty list.
    pub fn new(heap: Global) -> Result<Reserved<T, N>, AllocError>
        ensures { IfOk result (λ v. v.list.items ≡ []) }
    {
        let list = Vec::with_capacity(heap, N)?;
        Ok(Reserved { list })
    }

    /// How many items there are.
    pub fn len(&self) -> usize
        ensures { result ≡ length self.now.list.items }
    {
        self.list.len()
    }

    /// Its items, in their order.
    pub fn as_slice(&self) -> &[T]
        ensures { result.now ≡ self.now.list.items }
    {
        self.list.as_slice()
    }

    /// Item k, lent to be changed: the others stay as they are.
    pub(crate) fn get_mut(&mut self, k: usize) -> Option<&mut T>
        ensures* lends { sem 𝓛 (LendsIf (the_row T.row N.row) T.row self.entry result (λ w. record { list = with_item self.old.list k w; room = self.old.room }) self.old) }
        ensures item { ItemMut self.old.list.items k k result }
    {
        self.list.get_mut(k)
    }

    /// Puts an item at the end, or gives it back where there is no room.
    pub fn push(&mut self, item: T) -> Result<(), T>
        ensures { MatchResult result (λ _. (length self.old.list.items < N) × (self.new.list.items ≡ self.old.list.items ++ item ∷ [])) (λ y. (N ≤ length self.old.list.items) × (y ≡ item) × (self.new ≡ self.old)) }
    {
        if self.list.len() >= N {
            return Err(item);
        }
        self.list.push_reserved(item);
        Ok(())
    }

    /// Puts an item before item k, or gives it back where there is no room or no such place.
    pub fn insert(&mut self, k: usize, item: T) -> Result<(), T>
        ensures { MatchResult result (λ _. (k ≤ length self.old.list.items) × (length self.old.list.items < N) × (self.new.list.items ≡ insert self.old.list.items k item)) (λ y. ((length self.old.list.items < k) ⊎ (N ≤ length self.old.list.items)) × (y ≡ item) × (self.new ≡ self.old)) }
    {
        if k > self.list.len() || self.list.len() >= N {
            return Err(item);
        }
        self.list.insert(k, item).unwrap();
        Ok(())
    }

    /// Takes item k out, where there is one.
    pub fn remove(&mut self, k: usize) -> Option<T>
        ensures { MatchOption result ((length self.old.list.items ≤ k) × (self.new ≡ self.old)) (λ x. (k < length self.old.list.items) × (x ≡ slice_index_or self.old.list.items k x) × (self.new.list.items ≡ remove self.old.list.items k)) }
    {
        if k >= self.list.len() {
            return None;
        }
        Some(self.list.remove(k))
    }

    /// Lets all items go.
    pub fn clear(&mut self)
        ensures { self.new.list.items ≡ [] }
    {
        self.list.clear();
    }
}
