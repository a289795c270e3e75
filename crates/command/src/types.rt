// A command, and what it is answered with.
ghost use Rattle.std.specs.Prelude.{◌≡◌};
ghost use Rattle.command.specs.declared.types.Problem.TheVariants.{Refused};
ghost use Rattle.command.specs.Told.{problem_number, found_in};

use protocol::Standing;
use refusal::Refusal;
use sheet::Edit;

// A call of the cluster, with its numbers.
#[derive(Clone, Copy)]
pub enum Command {
    Campaign { server: u32 },
    // Kept: a number, as the line has it, of which any but 0 keeps the message.
    Deliver { position: u32, keep: u32 },
    Lose { position: u32 },
    Propose { server: u32, edit: Edit },
    Firm { server: u32 },
    Send { server: u32, receiver: u32 },
    Apply { server: u32 },
    Outage { server: u32, wish: u32 },
    Restart { server: u32 },
    Standing { server: u32, number: u32, term: u32 },
    Look { server: u32, row: u32, size: u32 },
}

// What a command is answered with.
#[derive(Clone, Copy, Debug, PartialEq, Eq)]
pub enum Told {
    Done,
    // How many messages were lost.
    Lost(u32),
    // A ticket's number and term.
    Ticket { number: u32, term: u32 },
    // How many entries an outage kept.
    Kept(u32),
    // What the server can tell of a ticket.
    Standing(Standing),
    // Tenths of a millimetre.
    Cell(u16),
}

// Why a line is answered with nothing.
#[derive(Clone, Copy, Debug, PartialEq, Eq)]
pub enum Problem {
    // The line is no command.
    NoCommand,
    Refused(Refusal),
}

// What the line of an answer ends with.
#[derive(Clone, Copy, Debug, PartialEq, Eq)]
pub enum Found {
    // How many entries were kept.
    Count(u32),
    // What the server can tell of a ticket.
    Word(Standing),
    // Tenths of a millimetre.
    Cell(u16),
}

// Kept: by hand and not by thiserror's derive, since `from_gives` is what `?` tells a contract.
impl From<Refusal> for Problem {
    ghost from_gives = { λ refusal problem. problem ≡ Refused refusal };

    fn from(refusal: Refusal) -> Problem {
        Self::Refused(refusal)
    }
}

impl Problem {
    // The number that stands for the problem.
    pub fn number(self) -> u8
        ensures { result ≡ problem_number self }
    {
        match self {
            // Kept: a variant beside one with a field has no number of its own.
            Problem::NoCommand => 14,
            Problem::Refused(refusal) => refusal.number(),
        }
    }
}

impl Told {
    // What an outage, a standing or a look found.
    pub fn found(self) -> Option<Found>
        ensures { result ≡ found_in self }
    {
        match self {
            Told::Done | Told::Lost(_) | Told::Ticket { .. } => None,
            Told::Kept(count) => Some(Found::Count(count)),
            Told::Standing(standing) => Some(Found::Word(standing)),
            Told::Cell(tenths) => Some(Found::Cell(tenths)),
        }
    }
}
