// The bytes of a record: length, kind, fields.
ghost use Rattle.std.specs.Prelude.{◌≡◌};
ghost use Rattle.record.specs.declared.kinds.Record.TheVariants.{Opening, Logged};
ghost use Rattle.record.specs.Format.{encode};

use crate::entry::Entry;
use crate::kinds::Ballot;

// Kept: by a name for each record, since `From` into two sizes of array would show at a call neither the record nor its size.
pub fn bytes_of_ballot(ballot: Ballot) -> [u8; 10]
    ensures { result ≡ encode (Opening ballot) }
{
    let [t0, t1, t2, t3] = ballot.term.to_le_bytes();
    let [v0, v1] = ballot.vote.to_le_bytes();
    [6, 0, 1, 0, t0, t1, t2, t3, v0, v1]
}

pub fn bytes_of_entry(entry: Entry) -> [u8; 26]
    ensures { result ≡ encode (Logged entry) }
{
    let [t0, t1, t2, t3] = entry.term.to_le_bytes();
    let [k0, k1] = entry.edit.kind.to_le_bytes();
    let [r0, r1, r2, r3] = entry.edit.row.to_le_bytes();
    let [s0, s1, s2, s3] = entry.edit.size.to_le_bytes();
    let [a0, a1, a2, a3] = entry.edit.a.to_le_bytes();
    let [q0, q1, q2, q3] = entry.edit.q.to_le_bytes();
    [
        22, 0, 2, 0, t0, t1, t2, t3, k0, k1, r0, r1, r2, r3, s0, s1, s2, s3, a0, a1, a2, a3, q0,
        q1, q2, q3,
    ]
}
