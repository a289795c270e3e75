// Why a record is refused: the fault of each reader carries the one below whole.
ghost use Rattle.std.specs.Prelude.{◌≡◌, Some};
ghost use Rattle.record.specs.Faults.{number_of, offset_of, reader_of, name_of};
ghost use Rattle.record.specs.declared.fault.RecordFault.TheVariants.{Field as InField};

use std::fmt;

// Fewer bytes than the head of the record at `offset` needs, or than its length needs.
#[derive(Clone, Copy, Debug, PartialEq, Eq)]
pub struct FieldFault {
    pub offset: usize,
}

// What is wrong with the record at `offset`.
#[derive(Clone, Copy, Debug, PartialEq, Eq)]
pub enum RecordFault {
    Field(FieldFault),
    WrongLength { offset: usize },
    UnknownKind { offset: usize },
}

// Who found a fault.
#[derive(Clone, Copy, Debug, PartialEq, Eq)]
pub enum Reader {
    Field,
    Record,
    Image,
}

impl fmt::Display for Reader {
    ghost output = { λ r. Some (name_of r) };

    fn fmt<W: fmt::Write>(&self, f: &mut fmt::Formatter<W>) -> fmt::Result {
        f.write_str(match self {
            Reader::Field => "field",
            Reader::Record => "record",
            Reader::Image => "image",
        })
    }
}

// Kept: by hand and not by thiserror's derive, since `from_gives` is what `?` tells a contract.
impl From<FieldFault> for RecordFault {
    ghost from_gives = { λ e r. r ≡ InField e };

    fn from(e: FieldFault) -> RecordFault {
        RecordFault::Field(e)
    }
}

impl RecordFault {
    // Kept: a variant with fields has no number of its own, so the format's numbers stand here.
    pub fn number(self) -> u8
        ensures { result ≡ number_of self }
    {
        match self {
            RecordFault::Field(_) => 21,
            RecordFault::WrongLength { .. } => 22,
            RecordFault::UnknownKind { .. } => 23,
        }
    }

    // Where the record at fault begins.
    pub fn offset(self) -> usize
        ensures { result ≡ offset_of self }
    {
        match self {
            RecordFault::Field(below) => below.offset,
            RecordFault::WrongLength { offset } | RecordFault::UnknownKind { offset } => offset,
        }
    }

    pub fn reader(self) -> Reader
        ensures { result ≡ reader_of self }
    {
        match self {
            RecordFault::Field(_) => Reader::Field,
            RecordFault::WrongLength { .. } | RecordFault::UnknownKind { .. } => Reader::Record,
        }
    }
}
