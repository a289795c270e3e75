// Why an image is refused, or why none is written.
ghost use Rattle.std.specs.Prelude.{◌≡◌};
ghost use Rattle.image.specs.Faults.{number_of, offset_of, reader_of, write_number_of};
ghost use Rattle.image.specs.declared.fault.ImageFault.TheVariants.{InRecord as OfRecord};

use record::{Reader, RecordFault};

// What is wrong with an image: a fault of the reader below, whole; or what is wrong with the record at `offset`.
#[derive(Clone, Copy, Debug, PartialEq, Eq)]
pub enum ImageFault {
    InRecord(RecordFault),
    // Kind 1 is not first, or comes again.
    Misplaced { offset: usize },
    // There are more than 64 entries.
    TooMany { offset: usize },
    // The vote, the term of kind 1 or the term of an entry is out of range.
    OutOfRange { offset: usize },
    // The store that was to be read into holds something.
    NotEmpty,
}

// Kept: by hand and not by thiserror's derive, since `from_gives` is what `?` tells a contract.
impl From<RecordFault> for ImageFault {
    ghost from_gives = { λ e r. r ≡ OfRecord e };

    fn from(e: RecordFault) -> ImageFault {
        ImageFault::InRecord(e)
    }
}

impl ImageFault {
    // Kept: a variant with fields has no number of its own, so the format's numbers stand here.
    pub fn number(self) -> u8
        ensures { result ≡ number_of self }
    {
        match self {
            ImageFault::InRecord(below) => below.number(),
            ImageFault::Misplaced { .. } => 24,
            ImageFault::TooMany { .. } => 25,
            ImageFault::OutOfRange { .. } => 26,
            ImageFault::NotEmpty => 28,
        }
    }

    // Where the record at fault begins.
    pub fn offset(self) -> usize
        ensures { result ≡ offset_of self }
    {
        match self {
            ImageFault::InRecord(below) => below.offset(),
            ImageFault::Misplaced { offset }
            | ImageFault::TooMany { offset }
            | ImageFault::OutOfRange { offset } => offset,
            ImageFault::NotEmpty => 0,
        }
    }

    pub fn reader(self) -> Reader
        ensures { result ≡ reader_of self }
    {
        match self {
            ImageFault::InRecord(below) => below.reader(),
            _ => Reader::Image,
        }
    }
}

// Why no image is written.
#[derive(Clone, Copy, Debug, PartialEq, Eq)]
pub enum WriteFault {
    // The store's vote, its term or the term of an entry is out of range.
    OutOfRange = 26,
    // The buffer is too short.
    TooShort = 27,
}

impl WriteFault {
    pub fn number(self) -> u8
        ensures { result ≡ write_number_of self }
    {
        self as u8
    }
}
