// The network: messages by their positions, from 1.
ghost use Rattle.std.specs.Prelude.{◌≡◌, ◌≤◌, if◌then◌else◌, Some, None};
ghost use Rattle.protocol.specs.State.{joined, lost_of, joined_some, lost_some};
ghost use Rattle.protocol.specs.Calls.{has_message, message_at, left};

use crate::state::Network;
use protocol::Message;

impl Network {
    pub(crate) fn message_at(&self, position: u32) -> Option<Message>
        ensures { result ≡ (if has_message position self.now.messages.items.items then Some (message_at position self.now.messages.items.items) else None) }
    {
        let before = position.checked_sub(1)?;
        self.messages.items().get(before as usize).copied()
    }

    pub(crate) fn has(&self, position: u32) -> bool
        ensures { result ≡ has_message position self.now.messages.items.items }
    {
        self.message_at(position).is_some()
    }

    // Takes out the message at a position, unless it is kept or there is none.
    pub(crate) fn take_out(&mut self, position: u32, keep: bool)
        ensures { self.new.messages.items.items ≡ left keep position self.old.messages.items.items }
    {
        if !keep && self.has(position) {
            let _ = self.messages.remove(position as usize - 1);
        }
    }

    // Posts a message where there is room, and tells how many were lost.
    pub(crate) fn post(&mut self, message: Message) -> u32
        ensures messages { self.new.messages.items.items ≡ joined self.old.messages.items.items message }
        ensures lost { result ≡ lost_of self.old.messages.items.items }
        ensures few { result ≤ 1 }
    {
        u32::from(self.messages.push(message).is_err())
    }

    pub(crate) fn post_some(&mut self, message: Option<Message>) -> u32
        ensures messages { self.new.messages.items.items ≡ joined_some self.old.messages.items.items message }
        ensures lost { result ≡ lost_some self.old.messages.items.items message }
    {
        // Kept: after `map_or` the proof knows nothing of what its closure changed in the network.
        match message {
            None => 0,
            Some(message) => self.post(message),
        }
    }
}
