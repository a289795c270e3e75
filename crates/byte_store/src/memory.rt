// The bytes of the store and its two counts. The first `len` places hold entries, of which the first `durable` are durable.
ghost use Rattle.std.specs.Prelude.{◌≤◌};
ghost use Rattle.byte_store.specs.Bytes.{Opened, Placed};

use store::MAX_ENTRIES;

mod calls;
mod places;

// How many bytes the opening record takes, the record of one entry, and all of them together.
const OPENING_SIZE: usize = 10;

const PLACE_SIZE: usize = 26;

pub const SIZE: usize = OPENING_SIZE + PLACE_SIZE * MAX_ENTRIES;

// Kept: an array and its counts, since the store is its image and opens with no memory, so that opening cannot fail.
#[derive(Drop)]
pub struct ByteStore {
    len: usize,
    durable: usize,
    bytes: [u8; SIZE],
    ghost held: { durable ≤ len },
    ghost few: { len ≤ 64 },
    ghost opened: { Opened bytes },
    ghost placed: { Placed len bytes },
}
