// What a server's log holds, and its records in bytes.
#![tactic(auto)]

pub mod entry;
pub mod fault;
pub mod kinds;
pub mod laws;
pub mod read;
pub mod write;

pub use entry::Entry;
pub use fault::{FieldFault, Reader, RecordFault};
pub use kinds::{Ballot, Record};
pub use read::read_record;
pub use write::{bytes_of_ballot, bytes_of_entry};
