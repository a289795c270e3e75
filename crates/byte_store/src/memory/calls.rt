// The calls on a byte store.
ghost use Rattle.std.specs.Prelude.{◌≡◌};
ghost use Rattle.store.specs.Stores.{Crashed, cleared, kept_by};
ghost use Rattle.image.specs.Images.{image};
ghost use Rattle.image.specs.Stores.{ballot_of};
ghost use Rattle.byte_store.specs.Memories.{kept};
ghost use Rattle.byte_store.specs.Steps as steps;

use super::places::{put_ballot, put_entry, read_ballot, read_entry, start_of};
use super::{ByteStore, SIZE};
use record::{Ballot, Entry};
use refusal::Refusal;
use std::alloc::{AllocError, Global};
use store::{MAX_ENTRIES, OpensEmpty, Store};

impl ByteStore {
    pub fn open() -> ByteStore
        ensures { kept result ≡ cleared }
    {
        let mut bytes = [0; SIZE];
        put_ballot(&mut bytes, Ballot::default());
        ByteStore {
            len: 0,
            durable: 0,
            bytes,
        }
    }

    // The records of the store: the image of its term and vote and of all its entries.
    pub fn bytes(&self) -> &[u8]
        ensures { result.now ≡ image (ballot_of (kept self.now)) (kept self.now).entries }
    {
        &self.bytes[..start_of(self.len)]
    }
}

impl OpensEmpty for ByteStore {
    fn open_empty(_heap: Global) -> Result<Self, AllocError> {
        Ok(ByteStore::open())
    }
}

impl Store for ByteStore {
    ghost meaning = { kept };

    ghost sound = { λ s. steps.sound_law s.len s.durable s.bytes s.held s.few };

    fn clear(&mut self) {
        self.len = 0;
        self.durable = 0;
        put_ballot(&mut self.bytes, Ballot::default());
    }

    fn set(&mut self, term: u32, vote: u16) {
        put_ballot(&mut self.bytes, Ballot { term, vote });
    }

    fn append(&mut self, entry: Entry) -> Result<(), Refusal> {
        if self.len >= MAX_ENTRIES {
            return Err(Refusal::OutOfBounds);
        }
        put_entry(&mut self.bytes, self.len, entry);
        self.len += 1;
        Ok(())
    }

    fn truncate(&mut self, n: usize) -> Result<(), Refusal> {
        if n > self.len {
            return Err(Refusal::OutOfBounds);
        }
        self.durable = self.durable.min(n);
        self.len = n;
        Ok(())
    }

    fn sync(&mut self) {
        self.durable = self.len;
    }

    // As many of the volatile entries stay as the wish says, if there are so many.
    fn crash(&mut self, wish: usize) -> usize
        ensures crashed { Crashed (kept self.old) result (kept self.new) }
        ensures exact { result ≡ kept_by wish (kept self.old) }
    {
        let volatile = self.len - self.durable;
        self.durable += wish.min(volatile);
        self.len = self.durable;
        self.len
    }

    fn term(&self) -> u32 {
        read_ballot(&self.bytes).term
    }

    fn vote(&self) -> u16 {
        read_ballot(&self.bytes).vote
    }

    fn len(&self) -> usize {
        self.len
    }

    fn durable(&self) -> usize {
        self.durable
    }

    fn entry(&self, n: usize) -> Result<Entry, Refusal> {
        // Kept: two tests, since by `checked_sub` and a guard the refusal stayed open in the proof.
        if n >= 1 && n <= self.len {
            Ok(read_entry(&self.bytes, n - 1))
        } else {
            Err(Refusal::OutOfBounds)
        }
    }
}
