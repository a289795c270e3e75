// What every machine means: an opening state, a next state after each edit, and a list of 1 to 17 states, newest first.
ghost use Rattle.std.specs.Prelude.{◌≡◌, ℕ, List, [], ◌∷◌, ℤ, Option, IfOk};
ghost use Rattle.refusal.specs.Numbers.{told};
ghost use Rattle.sheet.specs.declared.types.Edit.{Edit as TheEdit};
ghost use Rattle.machine.specs.States.{Counted, newest, apply_answer, applied, drop_answer, undone, settled, read_answer};

use refusal::Refusal;
use sheet::Edit;
use std::alloc::{AllocError, Global};

pub trait StateMachine {
    ghost State: { Type 0 };

    ghost opening: { State };

    ghost next: { State → TheEdit → State };

    // the cell of a state at a row and a size, if it has one
    ghost cell: { State → ℤ → ℤ → Option ℕ };

    ghost states: { Self → List State };

    // Adds the next state.
    fn apply(&mut self, edit: Edit) -> Result<(), Refusal>
        ensures answer { told result ≡ apply_answer (states self.old) }
        ensures after { states self.new ≡ applied opening next edit (states self.old) };

    // Drops the newest state.
    fn undo(&mut self) -> Result<(), Refusal>
        ensures answer { told result ≡ drop_answer (states self.old) }
        ensures after { states self.new ≡ undone (states self.old) };

    // Drops the oldest state.
    fn settle(&mut self) -> Result<(), Refusal>
        ensures answer { told result ≡ drop_answer (states self.old) }
        ensures after { states self.new ≡ settled (states self.old) };

    // Leaves only the opening state.
    fn reset(&mut self)
        ensures { states self.new ≡ opening ∷ [] };

    // Tells a cell of the newest state.
    fn read(&self, row: i32, size: i32) -> Result<u16, Refusal>
        ensures { told result ≡ read_answer (cell (newest opening (states self.now)) row size) };

    ghost idle: { (s : State) (e : TheEdit) → e.kind ≡ 0 → next s e ≡ s };

    ghost counted: { (m : Self) → Counted (states m) };
}

// What makes a machine.
pub trait Opens: StateMachine + Sized {
    // A machine at the opening state alone, with memory for sixteen open edits.
    fn open(heap: Global) -> Result<Self, AllocError>
        ensures { IfOk result (λ m. Self.states m ≡ Self.opening ∷ []) };
}
