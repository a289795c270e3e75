// Records in the bytes of a store: the opening record at the front, and one in each place behind it.
ghost use Rattle.std.specs.Prelude.{◌≡◌, ◌+◌, ◌*◌, ◌<◌, ◌≤◌, ◌++◌, take, drop};
ghost use Rattle.record.specs.declared.kinds.Record.TheVariants.{Opening, Logged};
ghost use Rattle.record.specs.Format.{encode};
ghost use Rattle.byte_store.specs.Bytes.{opening_part, place_part, ballot_in, entry_in, Opened, PlacedAt};

use super::{OPENING_SIZE, PLACE_SIZE, SIZE};
use record::{Ballot, Entry, Record, bytes_of_ballot, bytes_of_entry, read_record};

// Where a place begins: places count from 0, and so many of them stand between it and the opening record.
pub(crate) fn start_of(place: usize) -> usize
    requires { place ≤ 64 }
    ensures { result ≡ 10 + 26 * place }
{
    OPENING_SIZE + PLACE_SIZE * place
}

// Kept: beside put_entry, since each names its own record and place, and the rest is one line.
pub(crate) fn put_ballot(bytes: &mut [u8; SIZE], ballot: Ballot)
    ensures { bytes.new ≡ encode (Opening ballot) ++ drop 10 bytes.old }
{
    let record = bytes_of_ballot(ballot);
    bytes[0..OPENING_SIZE].copy_from_slice(&record);
}

pub(crate) fn put_entry(bytes: &mut [u8; SIZE], place: usize, entry: Entry)
    requires { place < 64 }
    ensures { bytes.new ≡ take (10 + 26 * place) bytes.old ++ (encode (Logged entry) ++ drop (10 + 26 * place + 26) bytes.old) }
{
    let at = start_of(place);
    let record = bytes_of_entry(entry);
    bytes[at..at + PLACE_SIZE].copy_from_slice(&record);
}

pub(crate) fn read_ballot(bytes: &[u8; SIZE]) -> Ballot
    requires { Opened bytes.now }
    ensures { result ≡ ballot_in (opening_part bytes.now) }
{
    let (record, _) = read_record(bytes, 0).unwrap();
    match record {
        Record::Opening(ballot) => ballot,
        Record::Logged(_) => unreachable(),
    }
}

pub(crate) fn read_entry(bytes: &[u8; SIZE], place: usize) -> Entry
    requires within { place < 64 }
    requires placed { PlacedAt place bytes.now }
    ensures { result ≡ entry_in (place_part place bytes.now) }
{
    let at = start_of(place);
    let (record, _) = read_record(&bytes[at..at + PLACE_SIZE], at).unwrap();
    match record {
        Record::Logged(entry) => entry,
        Record::Opening(_) => unreachable(),
    }
}
