// The rounds that the benchmark times: sixteen grade edits applied, one cell read, all sixteen taken back.
#![tactic(auto)]

ghost use Rattle.std.specs.Prelude.{◌≡◌, ◌<◌};

use machine::rehearsal::{apply_all, undo_times};
use machine::{Opens, ReplayMachine, StateMachine, UndoMachine};
use sheet::{Edit, Kind};
use std::alloc::{AllocError, Global};
use std::array;

#[cfg(test)]
mod tests;

// The edit number `k` of round `n`.
fn grade_edit(n: u32, k: u32) -> Edit
    requires { k < 16 }
{
    let row = (k % 8 + 1) as i32;
    let size = ((5 * k + n % 12) % 12 + 1) as i32;
    let a = ((n % 50 + k) % 50) as i32 - 10;
    let q = (k % 4 + 1) as i32;
    Edit {
        kind: Kind::Grade.into(),
        row,
        size,
        a,
        q,
    }
}

fn edits_of(n: u32) -> [Edit; 16] {
    array::from_fn(|k| grade_edit(n, k as u32))
}

// One round: the cell that was read. The machine is left as it was.
fn round<M: StateMachine>(machine: &mut M, n: u32) -> u16
    ensures { M.states machine.new ≡ M.states machine.old }
{
    let edits = edits_of(n);
    let applied = apply_all(machine, &edits);
    let cell = machine
        .read((n % 8 + 1) as i32, (n % 12 + 1) as i32)
        .unwrap_or(0);
    undo_times(machine, applied);
    cell
}

fn settled<M: StateMachine>(machine: &mut M, edit: Edit) {
    let _ = machine.apply(edit);
    let _ = machine.settle();
}

// Every cell becomes 10,000.
fn filled<M: StateMachine>(machine: &mut M) {
    for row in 1..9 {
        let set = Edit {
            kind: Kind::Set.into(),
            row,
            size: 1,
            a: 10_000,
            q: 0,
        };
        let grade = Edit {
            kind: Kind::Grade.into(),
            row,
            size: 1,
            a: 0,
            q: 1,
        };
        settled(machine, set);
        settled(machine, grade);
    }
}

// Every cell 10,000, then the rounds: the sum of what was read.
pub fn rounds<M: Opens + Drop>(heap: Global, count: u32) -> Result<u64, AllocError> {
    let mut machine = M::open(heap)?;
    filled(&mut machine);
    Ok((0..count).fold(0u64, |sum, n| {
        sum.wrapping_add(u64::from(round(&mut machine, n)))
    }))
}

// The rounds over a machine that keeps replaced rows; the largest number where there is no memory.
// Kept: two names of one generic function, since callers had these two, of which neither can fail.
pub fn undo_rounds(heap: Global, count: u32) -> u64 {
    rounds::<UndoMachine>(heap, count).unwrap_or(u64::MAX)
}

// The same over a machine that keeps the open edits.
pub fn replay_rounds(heap: Global, count: u32) -> u64 {
    rounds::<ReplayMachine>(heap, count).unwrap_or(u64::MAX)
}
