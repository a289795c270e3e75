// The calls that hand out a ticket and close it.
ghost use Rattle.std.specs.Prelude.{◌≡◌};
ghost use Rattle.protocol.specs.Calls.{said, ticket, word, propose, close};
ghost use Rattle.server.specs.Tickets.{told_ticket, told_closed, HandsBack};
ghost use Rattle.cluster.specs.Called.{Calls};

use crate::state::Cluster;
use machine::StateMachine;
use node::ids::place_of;
use protocol::ServerId;
use refusal::Refusal;
use server::{Outcome, Ticket, Unclosed};
use sheet::Edit;
use store::Store;

impl<S: Store + Drop, M: StateMachine + Drop> Cluster<S, M> {
    // A leader takes an edit as its next entry, and hands out a ticket for it.
    pub fn propose_ticket(&mut self, server: u32, edit: Edit) -> Result<Ticket, Refusal>
        ensures { Calls (propose server edit) (said (λ x. ticket x.0 x.1) (told_ticket result)) self.old self.new }
    {
        let me = ServerId::try_from(server)?;
        self.servers[place_of(me)].propose_ticket(edit)
    }

    // Closes a ticket whose outcome the server can tell. A refused close hands the ticket back.
    pub fn close(&self, server: u32, ticket: Ticket) -> Result<Outcome, Unclosed>
        ensures calls { Calls (close server ticket.proposed.number ticket.proposed.term) (said word (told_closed result)) self.now self.now }
        ensures back { HandsBack result ticket }
    {
        match ServerId::try_from(server) {
            Ok(me) => self.servers[place_of(me)].close(ticket),
            Err(refusal) => Err(Unclosed { refusal, ticket }),
        }
    }
}
