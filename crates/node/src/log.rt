// What a node reads of its log.
ghost use Rattle.std.specs.Prelude.{◌≡◌, ◌≤◌, length, if◌then◌else◌, Some, None, nat_lt};
ghost use Rattle.protocol.specs.State.{at, term_at, tip};
ghost use Rattle.protocol.specs.Elections.{pair_of};
ghost use Rattle.node.specs.Meaning.{server_of};

use crate::Node;
use record::Entry;
use store::{MAX_ENTRIES, Store};

impl<S: Store + Drop> Node<S> {
    pub fn len(&self) -> u32
        ensures is { result ≡ length (server_of S.Store self.now).log }
        ensures few { result ≤ MAX_ENTRIES }
    {
        self.store.len() as u32
    }

    // The entry that `i` others stand before.
    pub fn held(&self, i: u32) -> Option<Entry>
        ensures { result ≡ (if nat_lt i (length (server_of S.Store self.now).log) then Some (at (server_of S.Store self.now).log i) else None) }
    {
        self.store.entry(i as usize + 1).ok()
    }

    pub fn term_at(&self, i: u32) -> u32
        ensures { result ≡ term_at (server_of S.Store self.now).log i }
    {
        self.held(i).map_or(0, |entry| entry.term)
    }

    // The term of the entry with a number, 0 before the first.
    pub fn tip(&self, number: u32) -> u32
        ensures { result ≡ tip (server_of S.Store self.now).log number }
    {
        number.checked_sub(1).map_or(0, |i| self.term_at(i))
    }

    // How far the log has come: its last term and its length.
    pub fn pair(&self) -> (u32, u32)
        ensures { result ≡ pair_of (server_of S.Store self.now).log }
    {
        let length = self.len();
        (self.tip(length), length)
    }
}
