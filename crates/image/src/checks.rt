// Contents one entry after another, and whether their numbers are in range.
ghost use Rattle.std.specs.Prelude.{◌≡◌, ◌+◌, ◌<◌, ◌≤◌, [], ◌∷◌, ◌++◌, length};
ghost use Rattle.image.specs.Images.{held};
ghost use Rattle.image.specs.Rules.{ballot_in_range, term_in_range, terms_in_range, in_range};

use crate::contents::Contents;
use record::{Ballot, Entry};
use store::MAX_ENTRIES;

// A vote for none or for one of three servers, and a term of at most 1,000,000.
pub(crate) fn ballot_in_range(ballot: Ballot) -> bool
    ensures { result ≡ ballot_in_range ballot }
{
    ballot.vote <= 3 && ballot.term <= 1_000_000
}

// The term of an entry is not 0, not below the one before it, and not above `high`.
pub(crate) fn term_in_range(high: u32, low: u32, term: u32) -> bool
    ensures { result ≡ term_in_range high low term }
{
    0 < term && low <= term && term <= high
}

// So for each entry, where there is none before the first.
fn terms_in_range(high: u32, entries: &[Entry]) -> bool
    ensures { result ≡ terms_in_range high 0 entries.now }
{
    let mut low = 0;
    for entry in entries {
        if !term_in_range(high, low, entry.term) {
            return false;
        }
        low = entry.term;
    }
    true
}

impl Contents {
    // The ballot, and no entries.
    pub(crate) fn new(ballot: Ballot) -> Contents
        ensures ballot { result.ballot ≡ ballot }
        ensures len { result.len ≡ 0 }
    {
        Contents {
            ballot,
            len: 0,
            entries: [Entry::default(); MAX_ENTRIES],
        }
    }

    // One entry more.
    pub(crate) fn push(&mut self, entry: Entry)
        requires { self.old.len < 64 }
        ensures ballot { self.new.ballot ≡ self.old.ballot }
        ensures len { self.new.len ≡ self.old.len + 1 }
        ensures entries { held self.new ≡ held self.old ++ entry ∷ [] }
    {
        self.entries[self.len] = entry;
        self.len += 1;
    }

    // The entries.
    pub fn logged(&self) -> &[Entry]
        ensures value { result.now ≡ held self.now }
        ensures few { length result.now ≤ 64 }
    {
        &self.entries[..self.len]
    }

    // Whether an image of these contents can be written.
    pub fn in_range(&self) -> bool
        ensures { result ≡ in_range self.now.ballot (held self.now) }
    {
        ballot_in_range(self.ballot) && terms_in_range(self.ballot.term, self.logged())
    }
}
