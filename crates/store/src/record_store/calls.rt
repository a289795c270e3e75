// The calls on a record store.
ghost use Rattle.std.specs.Prelude.{◌≡◌, IfOk};
ghost use Rattle.store.specs.Stores.{Crashed, cleared, kept_by};
ghost use Rattle.store.specs.Records.{recorded};
ghost use Rattle.std.proofs.Common.{rules, arith};

use super::RecordStore;
use crate::{OpensEmpty, Store};
use bounded::Bounded;
use record::Entry;
use refusal::Refusal;
use std::alloc::{AllocError, Global};

impl RecordStore {
    pub fn open(heap: Global) -> Result<Self, AllocError>
        ensures { IfOk result (λ s. recorded s ≡ cleared) }
    {
        let entries = Bounded::open(heap)?;
        Ok(RecordStore {
            term: 0,
            vote: 0,
            durable: 0,
            entries,
        })
    }
}

impl OpensEmpty for RecordStore {
    fn open_empty(heap: Global) -> Result<Self, AllocError> {
        RecordStore::open(heap)
    }
}

impl Store for RecordStore {
    ghost meaning = { recorded };

    ghost sound = { first_of (Prim.search rules, Prim.grind (arith, Self.row.coded.inj)) };

    fn clear(&mut self) {
        self.term = 0;
        self.vote = 0;
        self.durable = 0;
        self.entries.clear();
    }

    fn set(&mut self, term: u32, vote: u16) {
        self.term = term;
        self.vote = vote;
    }

    fn append(&mut self, entry: Entry) -> Result<(), Refusal> {
        self.entries.push(entry)
    }

    fn truncate(&mut self, n: usize) -> Result<(), Refusal> {
        if n > self.entries.len() {
            return Err(Refusal::OutOfBounds);
        }
        self.durable = self.durable.min(n);
        self.entries.truncate(n);
        Ok(())
    }

    fn sync(&mut self) {
        self.durable = self.entries.len();
    }

    // As many of the volatile entries stay as the wish says, if there are so many.
    fn crash(&mut self, wish: usize) -> usize
        ensures crashed { Crashed (recorded self.old) result (recorded self.new) }
        ensures exact { result ≡ kept_by wish (recorded self.old) }
    {
        let volatile = self.entries.len() - self.durable;
        self.durable += wish.min(volatile);
        self.entries.truncate(self.durable);
        self.durable
    }

    fn term(&self) -> u32 {
        self.term
    }

    fn vote(&self) -> u16 {
        self.vote
    }

    fn len(&self) -> usize {
        self.entries.len()
    }

    fn durable(&self) -> usize {
        self.durable
    }

    fn entry(&self, n: usize) -> Result<Entry, Refusal> {
        n.checked_sub(1)
            .and_then(|place| self.entries.items().get(place).copied())
            .ok_or(Refusal::OutOfBounds)
    }
}
