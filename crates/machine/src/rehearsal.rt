// Several edits applied, taken back, and both: a rehearsal leaves no trace.
ghost use Rattle.std.specs.Prelude.{◌≡◌, ◌-◌, min, length};
ghost use Rattle.machine.specs.States.{applied_all, undone_times};

use crate::state_machine::StateMachine;
use sheet::Edit;

// Applies the edits in order, as far as there is room, and tells how many were applied.
pub fn apply_all<M: StateMachine>(machine: &mut M, edits: &[Edit]) -> usize
    ensures count { result ≡ min (length edits.now) (17 - length (M.states machine.old)) }
    ensures after { M.states machine.new ≡ applied_all M.opening M.next edits.now (M.states machine.old) }
{
    let mut applied = 0;
    for edit in edits {
        // Kept: as a chain of `filter` and `count` the clause on the count stayed open.
        if machine.apply(*edit).is_ok() {
            applied += 1;
        }
    }
    applied
}

// Undoes as often as that, as far as there are edits to take back.
// Kept: apart from the settling of a server; as one function of a closure its contract is longer than both loops.
pub fn undo_times<M: StateMachine>(machine: &mut M, times: usize)
    ensures { M.states machine.new ≡ undone_times times (M.states machine.old) }
{
    for _i in 0..times {
        let _ = machine.undo();
    }
}

// Applies the edits as far as there is room, and takes them all back: every state is what it was.
pub fn rehearse<M: StateMachine>(machine: &mut M, edits: &[Edit])
    ensures { M.states machine.new ≡ M.states machine.old }
{
    let applied = apply_all(machine, edits);
    undo_times(machine, applied);
}
