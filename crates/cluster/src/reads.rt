// What can be asked of a server, without changing anything.
ghost use Rattle.std.specs.Prelude.{◌≡◌};
ghost use Rattle.refusal.specs.Numbers.{told};
ghost use Rattle.protocol.specs.Calls.{said, word, cell, standing, look};
ghost use Rattle.cluster.specs.Meaning.{cluster_of};
ghost use Rattle.cluster.specs.Called.{Calls};
ghost use Rattle.cluster.specs.Statuses.{status_of};

use crate::state::Cluster;
use machine::StateMachine;
use node::ids::place_of;
use protocol::{ServerId, Standing, Status};
use refusal::Refusal;
use store::Store;

impl<S: Store + Drop, M: StateMachine + Drop> Cluster<S, M> {
    // What a server tells of the ticket with a number and a term.
    pub fn standing(&self, server: u32, number: u32, term: u32) -> Result<Standing, Refusal>
        ensures { Calls (standing server number term) (said word (told result)) self.now self.now }
    {
        let me = ServerId::try_from(server)?;
        self.servers[place_of(me)].standing(number, term)
    }

    // A cell of the newest sheet at a server.
    pub fn look(&self, server: u32, row: i32, size: i32) -> Result<u16, Refusal>
        ensures { Calls (look server row size) (said cell (told result)) self.now self.now }
    {
        let me = ServerId::try_from(server)?;
        self.servers[place_of(me)].look(row, size)
    }

    pub fn status(&self, server: ServerId) -> Status
        ensures { result ≡ status_of ((cluster_of self.now).core.server server) }
    {
        let node = &self.servers[place_of(server)].node;
        Status {
            term: node.store.term(),
            up: node.up,
            role: node.role,
            length: node.len(),
            durable: node.store.durable() as u32,
            commit: node.commit,
            applied: node.applied,
        }
    }
}
