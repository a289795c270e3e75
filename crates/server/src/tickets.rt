// Tickets: the outcome that is owed to whoever proposed an edit.
ghost use Rattle.std.specs.Prelude.{◌≡◌};
ghost use Rattle.protocol.specs.Calls.{decided};
ghost use Rattle.server.specs.Tickets.{told_outcome};

use crate::Proposed;
use protocol::Standing;
use refusal::Refusal;

// What is owed for a proposal. It is closed or written off: nothing else lets it go.
pub struct Ticket {
    pub(crate) proposed: Proposed,
}

// What became of a proposal.
#[derive(Clone, Copy, Debug, PartialEq, Eq)]
pub enum Outcome {
    Kept,
    Gone,
}

// Why a ticket was not closed, and the ticket.
pub struct Unclosed {
    pub refusal: Refusal,
    pub ticket: Ticket,
}

// The outcome that a standing tells, if it tells one.
impl TryFrom<Standing> for Outcome {
    type Error = Refusal;

    ghost try_from_gives = { λ standing outcome. told_outcome outcome ≡ decided standing };

    fn try_from(standing: Standing) -> Result<Outcome, Refusal> {
        match standing {
            Standing::Kept => Ok(Outcome::Kept),
            Standing::Gone => Ok(Outcome::Gone),
            Standing::Open | Standing::Unknown => Err(Refusal::Undecided),
        }
    }
}

impl Ticket {
    pub fn number(&self) -> u32
        ensures { result ≡ self.now.proposed.number }
    {
        self.proposed.number
    }

    pub fn term(&self) -> u32
        ensures { result ≡ self.now.proposed.term }
    {
        self.proposed.term
    }

    // Gives up on being told the outcome.
    pub fn write_off(self) {
        let Ticket { proposed: _ } = self;
    }
}
