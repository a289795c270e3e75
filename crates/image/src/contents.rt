// What an image holds.
ghost use Rattle.std.specs.Prelude.{◌≤◌};

use record::{Ballot, Entry};

// A ballot, and the first `len` of the entries.
// Kept: a count beside the array, since the type is Copy with public fields and takes no memory; a Vec and an ArrayVec are not Copy.
#[derive(Clone, Copy)]
pub struct Contents {
    pub ballot: Ballot,
    pub len: usize,
    pub entries: [Entry; 64],
    ghost few: { len ≤ 64 },
}
