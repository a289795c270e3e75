// The rules of the cluster, as definitions (specs/), the proof of what every run keeps (proofs/), and the plain types that rules and code share.
#![tactic(auto)]

ghost use Rattle.std.specs.Prelude.{◌≡◌, Ok, Err};
ghost use Rattle.refusal.specs.declared.Refusal.TheVariants.{NoSuchServer};
ghost use Rattle.protocol.specs.ServerIds.{number_of, numbered};

use record::Entry;
use refusal::Refusal;

pub mod shown;
pub mod starred;

// One of the three servers, by its number.
#[derive(Clone, Copy, Debug, PartialEq, Eq)]
pub enum ServerId {
    One = 1,
    Two = 2,
    Three = 3,
}

impl ServerId {
    // In order of their numbers.
    pub const ALL: [ServerId; 3] = [ServerId::One, ServerId::Two, ServerId::Three];
}

impl From<ServerId> for u16 {
    ghost from_gives = { λ server number. number ≡ number_of server };

    fn from(server: ServerId) -> u16 {
        server as u16
    }
}

// The server with a number, if there is one.
impl TryFrom<u32> for ServerId {
    type Error = Refusal;

    ghost try_from_gives = { λ number server. server ≡ numbered number Ok (Err NoSuchServer) };

    fn try_from(number: u32) -> Result<ServerId, Refusal> {
        match number {
            1 => Ok(ServerId::One),
            2 => Ok(ServerId::Two),
            3 => Ok(ServerId::Three),
            _ => Err(Refusal::NoSuchServer),
        }
    }
}

// What a server is in its term.
#[derive(Clone, Copy, Debug, PartialEq, Eq)]
pub enum Role {
    Follower,
    Candidate,
    Leader,
}

// What an append request carries: the number and term of the entry before, the sender's commit, and at most one entry.
#[derive(Clone, Copy, Debug, PartialEq, Eq)]
pub struct AppendEntries {
    pub previous: u32,
    pub previous_term: u32,
    pub commit: u32,
    pub entry: Option<Entry>,
}

// What a message says.
#[derive(Clone, Copy, Debug, PartialEq, Eq)]
pub enum Body {
    // A candidate's last term and length, as one pair.
    // Kept: a tuple, since the rules compare the two as one pair, the term weighing first, which is its own order.
    VoteRequest((u32, u32)),
    VoteReply(bool),
    AppendRequest(AppendEntries),
    // For a yes, through which entry the logs agree.
    AppendReply(Option<u16>),
}

// A message between two servers, with the sender's term.
#[derive(Clone, Copy, Debug, PartialEq, Eq)]
pub struct Message {
    pub from: ServerId,
    pub to: ServerId,
    pub term: u32,
    pub body: Body,
}

// What a server can tell of a ticket.
#[derive(Clone, Copy, Debug, PartialEq, Eq)]
pub enum Standing {
    Kept,
    Gone,
    Open,
    Unknown,
}

// A server at a glance.
#[derive(Clone, Copy, Debug, PartialEq, Eq)]
pub struct Status {
    pub term: u32,
    pub up: bool,
    pub role: Role,
    pub length: u32,
    pub durable: u32,
    pub commit: u32,
    pub applied: u32,
}
