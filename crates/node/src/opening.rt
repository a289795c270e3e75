// A node at opening.
ghost use Rattle.std.specs.Prelude.{◌≡◌};
ghost use Rattle.protocol.specs.declared.ServerId.TheVariants.{One};
ghost use Rattle.protocol.specs.State.{core_opening};
ghost use Rattle.node.specs.Meaning.{server_of};

use crate::{Node, Progress};
use protocol::Role;
use store::Store;

impl<S: Store + Drop> Node<S> {
    // Clears the store. Every server opens alike.
    pub fn open(mut store: S) -> Self
        ensures { server_of S.Store result ≡ core_opening.server One }
    {
        store.clear();
        Node {
            up: true,
            store,
            role: Role::Follower,
            voters: [false; 3],
            progress: [Progress {
                next: 0,
                matched: 0,
            }; 3],
            commit: 0,
            applied: 0,
        }
    }
}
