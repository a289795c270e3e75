// The calls. Each names a server or a message by any number, and is refused where there is none.
ghost use Rattle.std.specs.Prelude.{◌≡◌, IfOk};
ghost use Rattle.refusal.specs.Numbers.{told};
ghost use Rattle.protocol.specs.State.{opening};
ghost use Rattle.protocol.specs.Calls.{said, done, lost, ticket, keeps};
ghost use Rattle.protocol.specs.Calls.{campaign, deliver, lose, propose, firm, send, apply, outage, restart};
ghost use Rattle.server.specs.Turns.{kind_of};
ghost use Rattle.server.specs.Answers.{told_proposed, kept_by};
ghost use Rattle.cluster.specs.Meaning.{cluster_of};
ghost use Rattle.cluster.specs.Called.{Calls};

use crate::state::{Cluster, Network};
use bounded::Bounded;
use machine::StateMachine;
use node::ids::place_of;
use protocol::ServerId;
use refusal::Refusal;
use server::{Proposed, Server};
use sheet::Edit;
use std::alloc::{AllocError, Global};
use store::Store;

impl<S: Store + Drop, M: StateMachine + Drop> Cluster<S, M> {
    // Clears the stores, resets the machines, and reserves all memory that the calls will need.
    // Kept: three pairs, since an array of a type parameter owes each caller a bound on its size.
    pub fn open(
        heap: Global,
        first: (S, M),
        second: (S, M),
        third: (S, M),
    ) -> Result<Self, AllocError>
        ensures { IfOk result (λ c. cluster_of c ≡ opening (kind_of M.StateMachine)) }
    {
        let mut servers = Vec::with_capacity(heap, 3)?;
        servers.push_reserved(Server::open(first.0, first.1));
        servers.push_reserved(Server::open(second.0, second.1));
        servers.push_reserved(Server::open(third.0, third.1));
        let messages = Bounded::open(heap)?;
        Ok(Cluster {
            servers,
            network: Network { messages },
        })
    }

    // Kept: each call finds its server in two lines, since a method that lends one needs a longer contract on what the loan leaves behind.
    // A server takes the next term and asks for votes. Tells how many messages were lost.
    pub fn campaign(&mut self, server: u32) -> Result<u32, Refusal>
        ensures { Calls (campaign server) (said lost (told result)) self.old self.new }
    {
        let me = ServerId::try_from(server)?;
        let (low, high) = self.servers[place_of(me)].campaign(me)?;
        let first = self.network.post(low);
        let second = self.network.post(high);
        Ok(first + second)
    }

    // The message at a position reaches its receiver, and stays in the network only if it is to be kept. Tells how many messages were lost.
    pub fn deliver(&mut self, position: u32, keep: bool) -> Result<u32, Refusal>
        ensures { Calls (deliver position keep) (said lost (told result)) self.old self.new }
    {
        let message = self
            .network
            .message_at(position)
            .ok_or(Refusal::NoSuchMessage)?;
        let receiver = &mut self.servers[place_of(message.to)];
        if !receiver.node.up {
            return Err(Refusal::ServerDown);
        }
        let reply = receiver.hear(message);
        self.network.take_out(position, keep);
        Ok(self.network.post_some(reply))
    }

    // The message at a position is lost.
    pub fn lose(&mut self, position: u32) -> Result<(), Refusal>
        ensures { Calls (lose position) (said (λ _. done) (told result)) self.old self.new }
    {
        if !self.network.has(position) {
            return Err(Refusal::NoSuchMessage);
        }
        self.network.take_out(position, false);
        Ok(())
    }

    // A leader takes an edit as its next entry.
    pub fn propose(&mut self, server: u32, edit: Edit) -> Result<Proposed, Refusal>
        ensures { Calls (propose server edit) (said (λ x. ticket x.0 x.1) (told_proposed result)) self.old self.new }
    {
        let me = ServerId::try_from(server)?;
        self.servers[place_of(me)].propose(edit)
    }

    // A server makes its entries durable; a leader then raises its commit.
    pub fn firm(&mut self, server: u32) -> Result<(), Refusal>
        ensures { Calls (firm server) (said (λ _. done) (told result)) self.old self.new }
    {
        let me = ServerId::try_from(server)?;
        self.servers[place_of(me)].firm(me)
    }

    // A leader sends another server what comes next for it. Tells how many messages were lost.
    pub fn send(&mut self, server: u32, receiver: u32) -> Result<u32, Refusal>
        ensures { Calls (send server receiver) (said lost (told result)) self.old self.new }
    {
        let me = ServerId::try_from(server)?;
        let to = ServerId::try_from(receiver)?;
        let message = self.servers[place_of(me)].request(me, to)?;
        Ok(self.network.post(message))
    }

    // A server applies its next entry, below commit or openly.
    pub fn apply(&mut self, server: u32) -> Result<(), Refusal>
        ensures { Calls (apply server) (said (λ _. done) (told result)) self.old self.new }
    {
        let me = ServerId::try_from(server)?;
        self.servers[place_of(me)].apply()
    }

    // A server stops. Tells how many entries are left; `wish` is how many volatile ones may stay.
    pub fn outage(&mut self, server: u32, wish: u32) -> Result<u32, Refusal>
        ensures { Calls (outage server (kept_by result)) (said keeps (told result)) self.old self.new }
    {
        let me = ServerId::try_from(server)?;
        self.servers[place_of(me)].outage(wish)
    }

    // A stopped server starts again.
    pub fn restart(&mut self, server: u32) -> Result<(), Refusal>
        ensures { Calls (restart server) (said (λ _. done) (told result)) self.old self.new }
    {
        let me = ServerId::try_from(server)?;
        self.servers[place_of(me)].restart()
    }
}
