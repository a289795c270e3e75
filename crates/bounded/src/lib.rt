// A list of at most N items, in memory that is reserved when it is opened, so that no later call can fail for want of it.
#![tactic(auto)]

ghost use Rattle.std.specs.Prelude.{◌≡◌, ◌+◌, ◌-◌, ◌<◌, ◌≤◌, [], ◌∷◌, ◌++◌, length, take, drop, slice_index_or, vec_capacity, IfOk, MatchOption, MatchResult};
ghost use Rattle.refusal.specs.declared.Refusal.TheVariants.{OutOfBounds};

use refusal::Refusal;
use std::alloc::{AllocError, Global};

#[cfg(test)]
mod tests;

// Kept: ghost fields and no impl Model, since the laws of a machine and of a store need the bound of a value that no call has made.
// Kept: a Vec and no ArrayVec, whose room lies in the value, so that moving a machine or a store would copy all of it.
#[derive(Drop)]
pub struct Bounded<T, const N: usize> {
    items: Vec<T>,
    pub ghost few: { length items.items ≤ N },
    pub ghost reserved: { N ≤ vec_capacity items },
}

impl<T: Drop, const N: usize> Bounded<T, N> {
    // Reserves the memory of N items, of which there are none at first.
    pub fn open(heap: Global) -> Result<Self, AllocError>
        ensures { IfOk result (λ list. list.items.items ≡ []) }
    {
        let items = Vec::with_capacity(heap, N)?;
        Ok(Bounded { items })
    }

    pub fn items(&self) -> &[T]
        ensures value { result.now ≡ self.now.items.items }
        ensures few { length result.now ≤ N }
    {
        self.items.as_slice()
    }

    pub fn len(&self) -> usize
        ensures is { result ≡ length self.now.items.items }
        ensures few { result ≤ N }
    {
        self.items.len()
    }

    // Adds an item at the end; refused where there are N.
    pub fn push(&mut self, item: T) -> Result<(), Refusal>
        ensures items { MatchResult result (λ _. (length self.old.items.items < N) × (self.new.items.items ≡ self.old.items.items ++ item ∷ [])) (λ e. (e ≡ OutOfBounds) × (N ≤ length self.old.items.items) × (self.new.items.items ≡ self.old.items.items)) }
        ensures capacity { vec_capacity self.new.items ≡ vec_capacity self.old.items }
    {
        if self.items.len() >= N {
            return Err(Refusal::OutOfBounds);
        }
        self.items.push_reserved(item);
        Ok(())
    }

    // Takes out the last item; refused where there is none.
    pub fn pop(&mut self) -> Result<T, Refusal>
        ensures items { MatchResult result (λ last. self.old.items.items ≡ self.new.items.items ++ last ∷ []) (λ e. (e ≡ OutOfBounds) × (self.old.items.items ≡ []) × (self.new.items.items ≡ [])) }
        ensures capacity { vec_capacity self.new.items ≡ vec_capacity self.old.items }
    {
        self.items.pop().ok_or(Refusal::OutOfBounds)
    }

    // Takes out the first item; refused where there is none.
    pub fn pop_first(&mut self) -> Result<T, Refusal>
        ensures items { MatchResult result (λ first. self.old.items.items ≡ first ∷ self.new.items.items) (λ e. (e ≡ OutOfBounds) × (self.old.items.items ≡ []) × (self.new.items.items ≡ [])) }
        ensures capacity { vec_capacity self.new.items ≡ vec_capacity self.old.items }
    {
        if self.items.is_empty() {
            return Err(Refusal::OutOfBounds);
        }
        Ok(self.items.remove(0))
    }

    // Takes out the item at a place, from 0, if there is one.
    pub fn remove(&mut self, place: usize) -> Option<T>
        ensures items { MatchOption result ((length self.old.items.items ≤ place) × (self.new.items.items ≡ self.old.items.items)) (λ item. (place < length self.old.items.items) × (item ≡ slice_index_or self.old.items.items place item) × (self.new.items.items ≡ take place self.old.items.items ++ drop (place + 1) self.old.items.items)) }
        ensures capacity { vec_capacity self.new.items ≡ vec_capacity self.old.items }
    {
        if place < self.items.len() {
            Some(self.items.remove(place))
        } else {
            None
        }
    }

    // Keeps the first `n` items, or all where there are no more.
    pub fn truncate(&mut self, n: usize)
        ensures items { self.new.items.items ≡ take n self.old.items.items }
        ensures capacity { vec_capacity self.new.items ≡ vec_capacity self.old.items }
    {
        self.items.truncate(n);
    }

    pub fn clear(&mut self)
        ensures items { self.new.items.items ≡ [] }
        ensures capacity { vec_capacity self.new.items ≡ vec_capacity self.old.items }
    {
        self.items.clear();
    }
}
