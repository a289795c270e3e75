// The calls of one server that hand out a ticket and close it.
ghost use Rattle.std.specs.Prelude.{◌≡◌};
ghost use Rattle.protocol.specs.Rules.{proposes};
ghost use Rattle.protocol.specs.Calls.{propose_answer, close_answer};
ghost use Rattle.server.specs.Turns.{state_of, Turned};
ghost use Rattle.server.specs.Tickets.{told_ticket, told_outcome, told_closed, HandsBack};

use crate::{Outcome, Proposed, Server, Ticket, Unclosed};
use machine::StateMachine;
use refusal::Refusal;
use sheet::Edit;
use store::Store;

impl<S: Store + Drop, M: StateMachine + Drop> Server<S, M> {
    // A leader takes an edit as its next entry, and hands out a ticket for it.
    pub fn propose_ticket(&mut self, edit: Edit) -> Result<Ticket, Refusal>
        ensures says { told_ticket result ≡ propose_answer (state_of S.Store self.old) }
        ensures turns { Turned S.Store M.StateMachine self.old (proposes edit) self.new }
    {
        let proposed = self.propose(edit)?;
        Ok(Ticket { proposed })
    }

    // What became of a proposal, if the server can tell.
    fn outcome(&self, proposed: Proposed) -> Result<Outcome, Refusal>
        ensures { told_outcome result ≡ close_answer (state_of S.Store self.now) proposed.number proposed.term }
    {
        let standing = self.standing(proposed.number, proposed.term)?;
        Outcome::try_from(standing)
    }

    // Closes a ticket whose outcome the server can tell, or hands it back.
    pub fn close(&self, ticket: Ticket) -> Result<Outcome, Unclosed>
        ensures says { told_closed result ≡ close_answer (state_of S.Store self.now) ticket.proposed.number ticket.proposed.term }
        ensures back { HandsBack result ticket }
    {
        match self.outcome(ticket.proposed) {
            Ok(outcome) => {
                ticket.write_off();
                Ok(outcome)
            }
            Err(refusal) => Err(Unclosed { refusal, ticket }),
        }
    }
}
