// Servers, roles and standings as a printed line shows them.
ghost use Rattle.std.specs.Prelude.{◌≡◌, Some};
ghost use Rattle.protocol.specs.Shown.{role_shown, standing_shown, state_shown, server_shown};

use crate::{Role, Standing, Status};
use std::fmt;

// Kept: a letter and a word as texts beside Display, since a line in reserved memory takes them with no formatting, which can fail.
impl Role {
    // The letter of the role.
    pub fn letter(self) -> &'static str
        ensures { result.now ≡ role_shown self }
    {
        match self {
            Role::Follower => "f",
            Role::Candidate => "c",
            Role::Leader => "l",
        }
    }
}

impl Standing {
    // The word of the standing.
    pub fn word(self) -> &'static str
        ensures { result.now ≡ standing_shown self }
    {
        match self {
            Standing::Kept => "kept",
            Standing::Gone => "gone",
            Standing::Open => "open",
            Standing::Unknown => "unknown",
        }
    }
}

impl Status {
    // The letter of the server's role, or d where it is down.
    pub fn state(&self) -> &'static str
        ensures { result.now ≡ state_shown self.now }
    {
        if self.up { self.role.letter() } else { "d" }
    }
}

impl fmt::Display for Standing {
    ghost output = { λ standing. Some (standing_shown standing) };

    fn fmt<W: fmt::Write>(&self, f: &mut fmt::Formatter<W>) -> fmt::Result {
        f.write_str(self.word())
    }
}

impl fmt::Display for Status {
    ghost output = { λ status. Some (server_shown status) };

    fn fmt<W: fmt::Write>(&self, f: &mut fmt::Formatter<W>) -> fmt::Result {
        write!(
            f,
            "{}/{}/{}/{}/{}/{}",
            self.term,
            self.state(),
            self.length,
            self.durable,
            self.commit,
            self.applied
        )
    }
}
