// Why something is refused, and the number that stands for it.
#![tactic(auto)]

ghost use Rattle.std.specs.Prelude.{◌≡◌};
ghost use Rattle.refusal.specs.Numbers.{number_of};

#[derive(Clone, Copy, Debug, PartialEq, Eq)]
pub enum Refusal {
    // No server has this number.
    NoSuchServer = 1,
    // The server is down.
    ServerDown = 2,
    // The server is a leader.
    IsLeader = 3,
    // The server's term is at its limit of 1,000,000.
    TermLimit = 4,
    // The network has no message at this position.
    NoSuchMessage = 5,
    // The server is not a leader.
    NotLeader = 6,
    // The log holds 64 entries.
    LogFull = 7,
    // Sender and receiver are the same.
    SameServer = 8,
    // No entry may be applied.
    NothingToApply = 9,
    // Sixteen edits are open.
    TooManyOpen = 10,
    // The server is up.
    AlreadyUp = 11,
    // The ticket's standing is neither kept nor gone.
    Undecided = 12,
    // The sheet has no such cell.
    NoSuchCell = 13,
    // The move cannot be made, or there is no such thing to tell.
    OutOfBounds = 15,
}

impl Refusal {
    pub fn number(self) -> u8
        ensures { result ≡ number_of self }
    {
        self as u8
    }
}
