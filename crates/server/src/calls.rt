// The calls of one server: its node does its work, then its machine follows.
ghost use Rattle.std.specs.Prelude.{◌≡◌, true, [], ◌∷◌};
ghost use Rattle.std.specs.Fn.{FnOnceReturnsAtMut};
ghost use Rattle.refusal.specs.Numbers.{told};
ghost use Rattle.protocol.specs.declared.ServerId.TheVariants.{One};
ghost use Rattle.protocol.specs.State.{core_opening};
ghost use Rattle.protocol.specs.Elections.{caught_up, campaigns};
ghost use Rattle.protocol.specs.Rules.{hears, replies, proposes, firms, applies_next, fails, restarts, moved};
ghost use Rattle.protocol.specs.Calls.{propose_answer, firm_answer, apply_answer, outage_answer, restart_answer, standing_answer, look_answer};
ghost use Rattle.node.specs.Campaigns.{stand_answer};
ghost use Rattle.server.specs.Turns.{kind_of, state_of, states_of, Turned};
ghost use Rattle.server.specs.Answers.{told_proposed, request_answer, kept_by, may_keep_at};

use crate::following::{Before, follow};
use crate::steps::running;
use crate::{Proposed, Server, steps};
use machine::StateMachine;
use node::Node;
use protocol::{Message, Role, ServerId, Standing};
use refusal::Refusal;
use replication::leading::append_request;
use sheet::Edit;
use store::Store;

impl<S: Store + Drop, M: StateMachine + Drop> Server<S, M> {
    // Clears the store, and resets the machine.
    pub fn open(store: S, mut machine: M) -> Self
        ensures state { state_of S.Store result ≡ core_opening.server One }
        ensures states { states_of M.StateMachine result ≡ M.StateMachine.opening ∷ [] }
    {
        machine.reset();
        Server {
            node: Node::open(store),
            machine,
        }
    }

    // The node does its work, and the machine follows.
    fn turn<R, F: FnOnce(&mut Node<S>) -> R>(&mut self, work: F) -> R
        requires { F.IsAlwaysCallable work }
        ensures works { FnOnceReturnsAtMut F.FnOnce work self.old.node result self.new.node }
        ensures moves { states_of M.StateMachine self.new ≡ moved (kind_of M.StateMachine) (state_of S.Store self.old) (state_of S.Store self.new) (states_of M.StateMachine self.old) }
    {
        let before = Before::of(&self.node);
        let result = work(&mut self.node);
        follow(&mut self.machine, before, &self.node);
        result
    }

    // A campaign: the two vote requests.
    pub fn campaign(&mut self, me: ServerId) -> Result<(Message, Message), Refusal>
        ensures says { told result ≡ stand_answer me (state_of S.Store self.old) }
        ensures turns { Turned S.Store M.StateMachine self.old (campaigns me) self.new }
    {
        self.turn(|node| node.campaign(me))
    }

    // A message at its receiver: the message that goes back, if there is one.
    pub fn hear(&mut self, message: Message) -> Option<Message>
        ensures says { result ≡ replies (caught_up message.term (state_of S.Store self.old)) message.from message.to message.term message.body }
        ensures turns { Turned S.Store M.StateMachine self.old (λ s. hears (caught_up message.term s) message.from message.to message.term message.body) self.new }
    {
        self.turn(|node| steps::hear(node, message))
    }

    pub fn propose(&mut self, edit: Edit) -> Result<Proposed, Refusal>
        ensures says { told_proposed result ≡ propose_answer (state_of S.Store self.old) }
        ensures turns { Turned S.Store M.StateMachine self.old (proposes edit) self.new }
    {
        self.turn(|node| steps::propose(node, edit))
    }

    pub fn firm(&mut self, me: ServerId) -> Result<(), Refusal>
        ensures says { told result ≡ firm_answer (state_of S.Store self.old) }
        ensures turns { Turned S.Store M.StateMachine self.old (firms me) self.new }
    {
        self.turn(|node| steps::firm(node, me))
    }

    // The append request to another server.
    pub fn request(&self, me: ServerId, receiver: ServerId) -> Result<Message, Refusal>
        ensures { told result ≡ request_answer me receiver (state_of S.Store self.now) }
    {
        running(&self.node)?;
        if self.node.role != Role::Leader {
            return Err(Refusal::NotLeader);
        }
        if me == receiver {
            return Err(Refusal::SameServer);
        }
        Ok(append_request(&self.node, me, receiver))
    }

    pub fn apply(&mut self) -> Result<(), Refusal>
        ensures says { told result ≡ apply_answer (state_of S.Store self.old) }
        ensures turns { Turned S.Store M.StateMachine self.old applies_next self.new }
    {
        self.turn(steps::apply)
    }

    // Stops the server, and tells how many entries are left.
    pub fn outage(&mut self, wish: u32) -> Result<u32, Refusal>
        ensures says { told result ≡ outage_answer (state_of S.Store self.old) (kept_by result) }
        ensures may { may_keep_at (kept_by result) (state_of S.Store self.old) ≡ true }
        ensures turns { Turned S.Store M.StateMachine self.old (fails (kept_by result)) self.new }
    {
        self.turn(|node| steps::stop(node, wish))
    }

    pub fn restart(&mut self) -> Result<(), Refusal>
        ensures says { told result ≡ restart_answer (state_of S.Store self.old) }
        ensures turns { Turned S.Store M.StateMachine self.old restarts self.new }
    {
        self.turn(steps::restart)
    }

    // Kept: number and term one by one, as the rules' call has them, and as whoever kept them of a spent ticket has them.
    pub fn standing(&self, number: u32, term: u32) -> Result<Standing, Refusal>
        ensures { told result ≡ standing_answer (state_of S.Store self.now) number term }
    {
        running(&self.node)?;
        Ok(steps::standing_of(&self.node, number, term))
    }

    // A cell of the machine's newest state.
    pub fn look(&self, row: i32, size: i32) -> Result<u16, Refusal>
        ensures { told result ≡ look_answer (kind_of M.StateMachine) (state_of S.Store self.now) (states_of M.StateMachine self.now) row size }
    {
        running(&self.node)?;
        self.machine
            .read(row, size)
            .map_err(|_| Refusal::NoSuchCell)
    }
}
