// The two kinds of record.
use crate::entry::Entry;

// A server's term, and the server that it voted for in that term: 0 for none.
// Kept: the vote is a number, since a record reads and writes any of 16 bits, and an image tells which are servers.
#[derive(Clone, Copy, Debug, Default, PartialEq, Eq)]
pub struct Ballot {
    pub term: u32,
    pub vote: u16,
}

#[derive(Clone, Copy, Debug, PartialEq, Eq)]
pub enum Record {
    // Kind 1: opens an image.
    Opening(Ballot),
    // Kind 2: one entry of the log.
    Logged(Entry),
}
