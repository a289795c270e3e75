// What a server remembers: a term, a vote, and entries of which the first are durable.
#![tactic(auto)]

ghost use Rattle.std.specs.Prelude.{◌≡◌, length, IfOk};
ghost use Rattle.refusal.specs.Numbers.{told};
ghost use Rattle.store.specs.Stores.{StoreState, Sound, Crashed};
ghost use Rattle.store.specs.Stores.{cleared, voted, append_answer, appended, truncate_answer, truncated, synced, entry_answer};

use record::Entry;
use refusal::Refusal;
use std::alloc::{AllocError, Global};

pub mod record_store;

pub use record_store::RecordStore;

// A store holds at most this many entries.
pub const MAX_ENTRIES: usize = 64;

pub trait Store {
    ghost meaning: { Self → StoreState };

    fn clear(&mut self)
        ensures { meaning self.new ≡ cleared };

    // Sets term and vote, which are durable when it returns.
    fn set(&mut self, term: u32, vote: u16)
        ensures { meaning self.new ≡ voted term vote (meaning self.old) };

    fn append(&mut self, entry: Entry) -> Result<(), Refusal>
        ensures answer { told result ≡ append_answer (meaning self.old) }
        ensures after { meaning self.new ≡ appended entry (meaning self.old) };

    // Keeps the first `n` entries.
    fn truncate(&mut self, n: usize) -> Result<(), Refusal>
        ensures answer { told result ≡ truncate_answer n (meaning self.old) }
        ensures after { meaning self.new ≡ truncated n (meaning self.old) };

    // Makes every entry durable.
    fn sync(&mut self)
        ensures { meaning self.new ≡ synced (meaning self.old) };

    // Loses volatile entries, and tells how many entries are left. `wish` is how many volatile ones may stay.
    fn crash(&mut self, wish: usize) -> usize
        ensures { Crashed (meaning self.old) result (meaning self.new) };

    fn term(&self) -> u32
        ensures { result ≡ (meaning self.now).term };

    fn vote(&self) -> u16
        ensures { result ≡ (meaning self.now).vote };

    fn len(&self) -> usize
        ensures { result ≡ length (meaning self.now).entries };

    // How many entries, from the first, are durable.
    fn durable(&self) -> usize
        ensures { result ≡ (meaning self.now).durable };

    // The entry at a number, from 1.
    fn entry(&self, n: usize) -> Result<Entry, Refusal>
        ensures { told result ≡ entry_answer n (meaning self.now) };

    ghost sound: { (s : Self) → Sound (meaning s) };
}

// What makes a store that holds nothing.
pub trait OpensEmpty: Store + Sized {
    fn open_empty(heap: Global) -> Result<Self, AllocError>
        ensures { IfOk result (λ s. Self.meaning s ≡ cleared) };
}

// After a sync no crash loses anything, whatever the store.
#[tactic(auto, using(crate::proofs::Crashes::synced_crash))]
pub fn sync_then_crash<S: Store>(store: &mut S, wish: usize) -> usize
    ensures all { result ≡ length (S.meaning store.old).entries }
    ensures after { S.meaning store.new ≡ synced (S.meaning store.old) }
{
    store.sync();
    store.crash(wish)
}
