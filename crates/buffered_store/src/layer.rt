// The layer: a store, and the entries that it has not been handed yet, in memory that is reserved at opening.
use bounded::Bounded;
use record::Entry;

mod calls;
mod handing;

// At most this many entries are held back.
pub const MAX_HELD: usize = 8;

// Kept: that both fit is no field, since it would ask `S: Store` of whoever names the type.
#[derive(Drop)]
pub struct BufferedStore<S> {
    below: S,
    own: Bounded<Entry, MAX_HELD>,
}
