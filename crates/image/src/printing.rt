// An image written into a buffer.
ghost use Rattle.std.specs.Prelude.{◌≡◌, ◌+◌, ◌*◌, ◌≤◌, ◌++◌, length, take, drop};
ghost use Rattle.record.specs.declared.kinds.Record.TheVariants.{Logged};
ghost use Rattle.record.specs.Format.{encode};
ghost use Rattle.image.specs.Images.{entries_in, held};
ghost use Rattle.image.specs.Writing.{write_answer, write_after};

use crate::contents::Contents;
use crate::fault::WriteFault;
use record::{Entry, bytes_of_ballot, bytes_of_entry};

// Writes an entry's record at a place.
fn put_entry(buffer: &mut [u8], at: usize, entry: Entry)
    requires { at + 26 ≤ length buffer.old }
    ensures { buffer.new ≡ take at buffer.old ++ (encode (Logged entry) ++ drop (at + 26) buffer.old) }
{
    let bytes = bytes_of_entry(entry);
    buffer[at..at + 26].copy_from_slice(&bytes);
}

// Writes the records of the entries behind the opening record.
fn put_entries(buffer: &mut [u8], entries: &[Entry])
    requires { 10 + 26 * length entries.now ≤ length buffer.old }
    ensures { buffer.new ≡ (take 10 buffer.old ++ entries_in entries.now) ++ drop (10 + 26 * length entries.now) buffer.old }
{
    // Kept: a place by its number, since a proof knows only the length after `chunks_exact_mut`.
    for (place, entry) in entries.iter().enumerate() {
        put_entry(buffer, 10 + 26 * place, *entry);
    }
}

impl Contents {
    // Writes the image at the front of the buffer, and tells its length; the bytes behind it stay.
    pub fn write(&self, buffer: &mut [u8]) -> Result<usize, WriteFault>
        ensures answer { result ≡ write_answer self.now.ballot (held self.now) (length buffer.old) }
        ensures after { buffer.new ≡ write_after self.now.ballot (held self.now) buffer.old }
    {
        if !self.in_range() {
            return Err(WriteFault::OutOfRange);
        }
        let entries = self.logged();
        let size = 10 + 26 * entries.len();
        if buffer.len() < size {
            return Err(WriteFault::TooShort);
        }
        let bytes = bytes_of_ballot(self.ballot);
        buffer[0..10].copy_from_slice(&bytes);
        put_entries(buffer, entries);
        Ok(size)
    }
}
