// Three servers and the network between them.
ghost use Rattle.std.specs.Prelude.{◌≡◌, length};

use bounded::Bounded;
use machine::StateMachine;
use protocol::Message;
use server::Server;
use store::Store;

// At most 24 messages in order of posting.
#[derive(Drop)]
pub struct Network {
    pub(crate) messages: Bounded<Message, 24>,
}

// Kept: three servers stand in a Vec, since an array of a type parameter owes each caller a bound on its size.
#[derive(Drop)]
pub struct Cluster<S: Store + Drop, M: StateMachine + Drop> {
    pub(crate) servers: Vec<Server<S, M>>,
    pub(crate) network: Network,
    ghost three: { length servers.items ≡ 3 },
}
