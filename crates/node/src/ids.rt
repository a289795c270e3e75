// The three servers by place, and the other two of each.
ghost use Rattle.std.specs.Prelude.{◌≡◌, ◌<◌};
ghost use Rattle.protocol.specs.ServerIds.{low, high};
ghost use Rattle.node.specs.Meaning.{place};

use protocol::ServerId;

pub fn place_of(server: ServerId) -> usize
    ensures is { result ≡ place server }
    ensures small { result < 3 }
{
    server as usize - 1
}

// The other two of a server, the lower first.
pub fn others_of(server: ServerId) -> (ServerId, ServerId)
    ensures { result ≡ (low server, high server) }
{
    match server {
        ServerId::One => (ServerId::Two, ServerId::Three),
        ServerId::Two => (ServerId::One, ServerId::Three),
        ServerId::Three => (ServerId::One, ServerId::Two),
    }
}
