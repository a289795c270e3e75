// The machine does what its node did.
ghost use Rattle.std.specs.Prelude.{◌≡◌};
ghost use Rattle.protocol.specs.State.{at};
ghost use Rattle.protocol.specs.Rules.{settled_times};
ghost use Rattle.node.specs.Meaning.{server_of};
ghost use Rattle.server.specs.Turns.{kind_of, before_of, advanced, moved_from};

use machine::StateMachine;
use machine::rehearsal::undo_times;
use node::Node;
use sheet::Edit;
use store::Store;

// What its machine goes by of a node as it was.
#[derive(Clone, Copy, Debug, PartialEq, Eq)]
pub struct Before {
    pub up: bool,
    pub applied: u32,
    pub commit: u32,
}

impl Before {
    pub fn of<S: Store + Drop>(node: &Node<S>) -> Self
        ensures { result ≡ before_of (server_of S.Store node.now) }
    {
        Before {
            up: node.up,
            applied: node.applied,
            commit: node.commit,
        }
    }
}

// Settles as often as that, as far as there are states to settle.
// Kept: undo_times in machine drops the newest state where this drops the oldest; one loop for both would take the move as a closure, no plainer than the loop.
fn settle_times<M: StateMachine>(machine: &mut M, times: u32)
    ensures { M.states machine.new ≡ settled_times times (M.states machine.old) }
{
    for _i in 0..times {
        let _ = machine.settle();
    }
}

// The edit of the entry that `i` others stand before.
fn edit_at<S: Store + Drop>(node: &Node<S>, i: u32) -> Edit
    ensures { result ≡ (at (S.Store.meaning node.now.store).entries i).edit }
{
    node.held(i).map(|entry| entry.edit).unwrap_or_default()
}

// Applies or undoes, from `was` applied entries to those of the node.
fn advance<S: Store + Drop, M: StateMachine + Drop>(machine: &mut M, was: u32, node: &Node<S>)
    ensures { M.StateMachine.states machine.new ≡ advanced (kind_of M.StateMachine) was (server_of S.Store node.now) (M.StateMachine.states machine.old) }
{
    if was < node.applied {
        let _ = machine.apply(edit_at(node, was));
    } else {
        undo_times(machine, (was - node.applied) as usize);
    }
}

// Moves from what the node was.
pub fn follow<S: Store + Drop, M: StateMachine + Drop>(
    machine: &mut M,
    before: Before,
    node: &Node<S>,
)
    ensures { M.StateMachine.states machine.new ≡ moved_from (kind_of M.StateMachine) before (server_of S.Store node.now) (M.StateMachine.states machine.old) }
{
    if before.up && !node.up {
        machine.reset();
        return;
    }
    advance(machine, before.applied, node);
    let decided = node.applied.min(node.commit);
    let was_decided = before.applied.min(before.commit);
    settle_times(machine, decided.saturating_sub(was_decided));
}
