// The calls on a buffered store.
ghost use Rattle.std.specs.Prelude.{◌≡◌, ◌≤◌, length, IfOk, IfErr};
ghost use Rattle.refusal.specs.Numbers.{told};
ghost use Rattle.store.specs.Stores.{Crashed, cleared, voted, append_answer, appended, truncate_answer, truncated, synced};
ghost use Rattle.buffered_store.specs.Layers.{Fits, Joined, CrashedBelow, over, voted_below, appended_to, truncated_to, synced_below};
ghost use Rattle.buffered_store.specs.Buffered.{layered, buffered};
ghost use Rattle.buffered_store.specs.Extending.{extended_sound};

use super::BufferedStore;
use bounded::Bounded;
use record::Entry;
use refusal::Refusal;
use std::alloc::{AllocError, AllocFailed, Global};
use store::{MAX_ENTRIES, OpensEmpty, Store};

impl<S: Store> BufferedStore<S> {
    // A layer over this store, which comes back where there is no memory.
    pub fn open(heap: Global, below: S) -> Result<Self, AllocFailed<S>>
        ensures same { IfOk result (λ s. buffered S.Store s ≡ S.Store.meaning below) }
        ensures layer { IfOk result (λ s. layered S.Store s ≡ over (S.Store.meaning below)) }
        ensures joined { IfOk result (λ s. Joined (layered S.Store s)) }
        ensures refused { IfErr result (λ back. back.value ≡ below) }
    {
        match Bounded::open(heap) {
            Ok(own) => Ok(BufferedStore { below, own }),
            Err(_) => Err(AllocFailed { value: below }),
        }
    }

    // The store below, which has not been handed the entries that are held back.
    pub fn below(&self) -> &S
        ensures { S.Store.meaning result.now ≡ (layered S.Store self.now).below }
    {
        &self.below
    }

    // The entries that are held back, in order. Where both fit, all entries are those below followed by these.
    pub fn held_back(&self) -> &[Entry]
        ensures value { result.now ≡ (layered S.Store self.now).own }
        ensures few { length result.now ≤ 8 }
        ensures joined { Fits (layered S.Store self.now) → Joined (layered S.Store self.now) }
    {
        self.own.items()
    }
}

impl<S: OpensEmpty + Drop> OpensEmpty for BufferedStore<S> {
    fn open_empty(heap: Global) -> Result<Self, AllocError> {
        Ok(BufferedStore::open(heap, S::open_empty(heap)?)?)
    }
}

impl<S: Store> Store for BufferedStore<S> {
    ghost meaning = { buffered S.Store };

    ghost sound = { λ s. extended_sound (S.Store.meaning s.below) s.own.items.items (S.Store.sound s.below) };

    fn clear(&mut self)
        ensures after { buffered S.Store self.new ≡ cleared }
        ensures layer { layered S.Store self.new ≡ over cleared }
        ensures joined { Joined (layered S.Store self.new) }
    {
        self.own.clear();
        self.below.clear();
    }

    fn set(&mut self, term: u32, vote: u16)
        ensures after { buffered S.Store self.new ≡ voted term vote (buffered S.Store self.old) }
        ensures layer { layered S.Store self.new ≡ voted_below term vote (layered S.Store self.old) }
        ensures joined { Fits (layered S.Store self.old) → Joined (layered S.Store self.new) }
    {
        self.below.set(term, vote);
    }

    fn append(&mut self, entry: Entry) -> Result<(), Refusal>
        ensures answer { told result ≡ append_answer (buffered S.Store self.old) }
        ensures after { buffered S.Store self.new ≡ appended entry (buffered S.Store self.old) }
        ensures layer { layered S.Store self.new ≡ appended_to entry (layered S.Store self.old) }
        ensures joined { Fits (layered S.Store self.old) → Joined (layered S.Store self.new) }
    {
        if self.len() >= MAX_ENTRIES {
            return Err(Refusal::OutOfBounds);
        }
        self.make_room();
        self.own.push(entry)
    }

    fn truncate(&mut self, n: usize) -> Result<(), Refusal>
        ensures answer { told result ≡ truncate_answer n (buffered S.Store self.old) }
        ensures after { buffered S.Store self.new ≡ truncated n (buffered S.Store self.old) }
        ensures layer { layered S.Store self.new ≡ truncated_to n (layered S.Store self.old) }
        ensures joined { Fits (layered S.Store self.old) → Joined (layered S.Store self.new) }
    {
        if n > self.len() {
            return Err(Refusal::OutOfBounds);
        }
        let below = self.below.len();
        if n >= below {
            self.own.truncate(n - below);
            return Ok(());
        }
        self.own.clear();
        self.below.truncate(n)
    }

    fn sync(&mut self)
        ensures after { buffered S.Store self.new ≡ synced (buffered S.Store self.old) }
        ensures layer { layered S.Store self.new ≡ synced_below (layered S.Store self.old) }
        ensures joined { Joined (layered S.Store self.new) }
    {
        self.hand_down();
        self.below.sync();
    }

    fn crash(&mut self, wish: usize) -> usize
        ensures after { Crashed (buffered S.Store self.old) result (buffered S.Store self.new) }
        ensures layer { CrashedBelow (layered S.Store self.old) result (layered S.Store self.new) }
        ensures joined { Joined (layered S.Store self.new) }
    {
        self.own.clear();
        self.below.crash(wish)
    }

    fn term(&self) -> u32 {
        self.below.term()
    }

    fn vote(&self) -> u16 {
        self.below.vote()
    }

    fn len(&self) -> usize {
        (self.below.len() + self.own.len()).min(MAX_ENTRIES)
    }

    fn durable(&self) -> usize {
        self.below.durable()
    }

    fn entry(&self, n: usize) -> Result<Entry, Refusal> {
        let below = self.below.len();
        if n <= below {
            return self.below.entry(n);
        }
        if n > self.len() {
            return Err(Refusal::OutOfBounds);
        }
        Ok(self.own.items()[n - below - 1])
    }
}
