// What the line that answers a command tells.
ghost use Rattle.std.specs.Prelude.{◌≡◌, IfOk, Some, string_bytes};
ghost use Rattle.command.specs.Told.{reply_to};
ghost use Rattle.command.specs.Shown.{found_shown, shown};

use crate::types::{Found, Problem, Told};
use protocol::Status;
use std::alloc::{AllocError, Global};
use std::fmt;

// The number of an answer, the three servers at a glance, and what the call found.
#[derive(Clone, Copy, Debug, PartialEq, Eq)]
pub struct Reply {
    pub number: u8,
    pub servers: [Status; 3],
    pub found: Option<Found>,
}

impl Reply {
    // What is told of an answer, and of the servers after it.
    pub fn to(answer: Result<Told, Problem>, servers: [Status; 3]) -> Reply
        ensures { result ≡ reply_to answer servers }
    {
        match answer {
            Ok(told) => Reply {
                number: 0,
                servers,
                found: told.found(),
            },
            Err(problem) => Reply {
                number: problem.number(),
                servers,
                found: None,
            },
        }
    }
}

impl fmt::Display for Found {
    ghost output = { λ found. Some (found_shown found) };

    fn fmt<W: fmt::Write>(&self, f: &mut fmt::Formatter<W>) -> fmt::Result {
        match self {
            Found::Count(count) => write!(f, "{count}"),
            Found::Word(standing) => write!(f, "{standing}"),
            Found::Cell(tenths) => write!(f, "{tenths}"),
        }
    }
}

impl fmt::Display for Reply {
    ghost output = { λ reply. Some (shown reply) };

    fn fmt<W: fmt::Write>(&self, f: &mut fmt::Formatter<W>) -> fmt::Result {
        let number = self.number;
        let [one, two, three] = &self.servers;
        match self.found {
            None => write!(f, "{number} {one} {two} {three}"),
            Some(found) => write!(f, "{number} {one} {two} {three} {found}"),
        }
    }
}

// The line that tells a reply.
pub fn answer_line(heap: Global, reply: &Reply) -> Result<String, AllocError>
    ensures { IfOk result (λ t. string_bytes t ≡ shown reply.now) }
{
    format!(in heap; "{reply}")
}
