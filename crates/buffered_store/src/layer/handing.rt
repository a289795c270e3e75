// Handing entries down to a store.
ghost use Rattle.std.specs.Prelude.{◌≡◌, ◌<◌, length, vec_capacity};
ghost use Rattle.buffered_store.specs.Layers.{extended, over, whole, with_room};
ghost use Rattle.buffered_store.specs.Buffered.{layered};

use super::{BufferedStore, MAX_HELD};
use record::Entry;
use store::Store;

// Appends these entries in order, as many as the store has room for.
fn append_all<S: Store>(below: &mut S, entries: &[Entry])
    ensures { S.meaning below.new ≡ extended entries.now (S.meaning below.old) }
{
    for entry in entries {
        let _ = below.append(*entry);
    }
}

impl<S: Store> BufferedStore<S> {
    // Hands all entries down.
    pub(crate) fn hand_down(&mut self)
        ensures layer { layered S.Store self.new ≡ over (whole (layered S.Store self.old)) }
        ensures capacity { vec_capacity self.new.own.items ≡ vec_capacity self.old.own.items }
    {
        append_all(&mut self.below, self.own.items());
        self.own.clear();
    }

    // Hands all entries down where as many are held back as may be.
    pub(crate) fn make_room(&mut self)
        ensures layer { layered S.Store self.new ≡ with_room (layered S.Store self.old) }
        ensures room { length (layered S.Store self.new).own < 8 }
        ensures capacity { vec_capacity self.new.own.items ≡ vec_capacity self.old.own.items }
    {
        if self.own.len() >= MAX_HELD {
            self.hand_down();
        }
    }
}
