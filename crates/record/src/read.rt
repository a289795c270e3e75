// Reading a record: its four head bytes, as many bytes of fields as its length says, and what follows.
ghost use Rattle.std.specs.Prelude.{◌≡◌, ◌<◌, length, MatchOption, ◌≢◌};
ghost use Rattle.record.specs.Format.{ballot_fields, edit_fields, entry_fields, RecordRead, ReadsBack, answered};
ghost use Rattle.record.specs.Parts.{HeadOf};

use crate::entry::Entry;
use crate::fault::{FieldFault, RecordFault};
use crate::kinds::{Ballot, Record};
use sheet::Edit;

// The head of a record, and the bytes behind it.
struct Head<'a> {
    length: u16,
    kind: u16,
    rest: &'a [u8],
}

// Nothing where there are fewer than its four bytes.
fn take_head(bytes: &[u8]) -> Option<Head<'_>>
    ensures { MatchOption result (length bytes.now < 4) (HeadOf bytes.now) }
{
    let [l0, l1, k0, k1, rest @ ..] = bytes else {
        return None;
    };
    let length = u16::from_le_bytes([*l0, *l1]);
    let kind = u16::from_le_bytes([*k0, *k1]);
    Some(Head { length, kind, rest })
}

// A term and a vote; nothing where that is another number of bytes.
fn read_ballot(fields: &[u8]) -> Option<Ballot>
    ensures { MatchOption result (length fields.now ≢ 6) (λ b. fields.now ≡ ballot_fields b) }
{
    let [t0, t1, t2, t3, v0, v1] = fields else {
        return None;
    };
    let term = u32::from_le_bytes([*t0, *t1, *t2, *t3]);
    let vote = u16::from_le_bytes([*v0, *v1]);
    Some(Ballot { term, vote })
}

// The kind of an edit and its four words; nothing where that is another number of bytes.
fn read_edit(fields: &[u8]) -> Option<Edit>
    ensures { MatchOption result (length fields.now ≢ 18) (λ e. fields.now ≡ edit_fields e) }
{
    let [
        k0,
        k1,
        r0,
        r1,
        r2,
        r3,
        s0,
        s1,
        s2,
        s3,
        a0,
        a1,
        a2,
        a3,
        q0,
        q1,
        q2,
        q3,
    ] = fields
    else {
        return None;
    };
    Some(Edit {
        kind: u16::from_le_bytes([*k0, *k1]),
        row: i32::from_le_bytes([*r0, *r1, *r2, *r3]),
        size: i32::from_le_bytes([*s0, *s1, *s2, *s3]),
        a: i32::from_le_bytes([*a0, *a1, *a2, *a3]),
        q: i32::from_le_bytes([*q0, *q1, *q2, *q3]),
    })
}

// A term and an edit; nothing where that is another number of bytes.
fn read_entry(fields: &[u8]) -> Option<Entry>
    ensures { MatchOption result (length fields.now ≢ 22) (λ e. fields.now ≡ entry_fields e) }
{
    let [t0, t1, t2, t3, rest @ ..] = fields else {
        return None;
    };
    let edit = read_edit(rest)?;
    let term = u32::from_le_bytes([*t0, *t1, *t2, *t3]);
    Some(Entry { term, edit })
}

// The record at the front of the bytes, and the bytes behind it. `offset` is where the record begins in the whole.
pub fn read_record(bytes: &[u8], offset: usize) -> Result<(Record, &[u8]), RecordFault>
    ensures answer { RecordRead bytes.now offset (answered result) }
    ensures back { ReadsBack bytes.now (answered result) }
{
    let Head { length, kind, rest } = take_head(bytes).ok_or(FieldFault { offset })?;
    let (fields, rest) = rest
        .split_at_checked(length as usize)
        .ok_or(FieldFault { offset })?;
    let wrong_length = RecordFault::WrongLength { offset };
    // Kept: the format's numbers of its two kinds; Record is their enum, and another one would be matched again right here.
    match kind {
        1 => Ok((
            Record::Opening(read_ballot(fields).ok_or(wrong_length)?),
            rest,
        )),
        2 => Ok((
            Record::Logged(read_entry(fields).ok_or(wrong_length)?),
            rest,
        )),
        _ => Err(RecordFault::UnknownKind { offset }),
    }
}
