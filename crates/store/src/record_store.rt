// A store that keeps its entries as records, in memory that is reserved at opening.
ghost use Rattle.std.specs.Prelude.{◌≤◌, length};

use crate::MAX_ENTRIES;
use bounded::Bounded;
use record::Entry;

mod calls;

#[derive(Drop)]
pub struct RecordStore {
    term: u32,
    vote: u16,
    durable: usize,
    entries: Bounded<Entry, MAX_ENTRIES>,
    ghost held: { durable ≤ length entries.items.items },
}
