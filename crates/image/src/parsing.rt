// The contents of an image: the whole of it is checked, record by record.
ghost use Rattle.image.specs.Images.{OpeningRead, EntriesRead, ImageRead, opened, contained};

use crate::checks::{ballot_in_range, term_in_range};
use crate::contents::Contents;
use crate::fault::ImageFault;
use record::{Ballot, Record, read_record};
use store::MAX_ENTRIES;

// The opening record, and the bytes behind it.
fn read_opening(bytes: &[u8]) -> Result<(Ballot, &[u8]), ImageFault>
    ensures { OpeningRead bytes.now (opened result) }
{
    let (record, rest) = read_record(bytes, 0)?;
    let Record::Opening(ballot) = record else {
        return Err(ImageFault::Misplaced { offset: 0 });
    };
    if !ballot_in_range(ballot) {
        return Err(ImageFault::OutOfRange { offset: 0 });
    }
    Ok((ballot, rest))
}

// The entries behind the opening record.
fn read_entries(ballot: Ballot, bytes: &[u8]) -> Result<Contents, ImageFault>
    ensures { EntriesRead ballot bytes.now (contained result) }
{
    let mut contents = Contents::new(ballot);
    let mut low = 0;
    let mut offset = 10;
    let mut rest = bytes;
    // Kept: places counted by hand, since read_record has to see all the bytes that follow and not 26 of them.
    while !rest.is_empty() {
        let (record, after) = read_record(rest, offset)?;
        let Record::Logged(entry) = record else {
            return Err(ImageFault::Misplaced { offset });
        };
        if contents.len == MAX_ENTRIES {
            return Err(ImageFault::TooMany { offset });
        }
        if !term_in_range(ballot.term, low, entry.term) {
            return Err(ImageFault::OutOfRange { offset });
        }
        contents.push(entry);
        low = entry.term;
        offset += 26;
        rest = after;
    }
    Ok(contents)
}

// What an image holds; the first fault where it is none.
pub fn parse(bytes: &[u8]) -> Result<Contents, ImageFault>
    ensures { ImageRead bytes.now (contained result) }
{
    let (ballot, rest) = read_opening(bytes)?;
    read_entries(ballot, rest)
}
