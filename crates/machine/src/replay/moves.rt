ghost use Rattle.std.specs.Prelude.{◌≡◌, ℕ, List, [], ◌∷◌, length};
ghost use Rattle.sheet.specs.Cells.{cells_of};
ghost use Rattle.sheet.specs.Rules.{opening, cell_at, next};
ghost use Rattle.machine.specs.States.{newest};
ghost use Rattle.machine.specs.Sheets.{replay_states};
ghost use borrow.Author.Rules.{rules};
ghost use Rattle.sheet.specs.Rules;
ghost use Rattle.machine.specs.Counts;
ghost use Rattle.machine.specs.StepsOn.{on_count};

use super::ReplayMachine;
use crate::state_machine::{Opens, StateMachine};
use bounded::Bounded;
use refusal::Refusal;
use sheet::{Edit, Sheet};
use std::alloc::{AllocError, Global};

impl ReplayMachine {
    // The oldest sheet after all the open edits.
    fn replayed(&self) -> Sheet
        ensures { cells_of result ≡ newest opening (replay_states self.now) }
    {
        let mut sheet = self.oldest;
        for edit in self.edits.items() {
            sheet.change(*edit);
        }
        sheet
    }
}

#[tactic(auto, using(crate::specs::StepsOn::on_count, crate::specs::StepsOn::on_more), unfolding(crate::specs::Sheets::replay_states))]
impl StateMachine for ReplayMachine {
    ghost State = { List (List ℕ) };

    ghost opening = { opening };

    ghost next = { next };

    ghost cell = { cell_at };

    ghost states = { replay_states };

    ghost idle = { unfold Rules.next in Prim.search rules };

    ghost counted = { unfold replay_states in λ m. Counts.counted _ (length m.edits.items.items) (on_count (cells_of m.oldest) m.edits.items.items) m.edits.few };

    fn apply(&mut self, edit: Edit) -> Result<(), Refusal> {
        self.edits.push(edit)
    }

    fn undo(&mut self) -> Result<(), Refusal> {
        let _ = self.edits.pop()?;
        Ok(())
    }

    fn settle(&mut self) -> Result<(), Refusal> {
        let edit = self.edits.pop_first()?;
        // Kept: by value, since in place the archive for C needs memmove from outside.
        self.oldest = self.oldest.apply(edit);
        Ok(())
    }

    fn reset(&mut self) {
        self.oldest = Sheet::blank();
        self.edits.clear();
    }

    fn read(&self, row: i32, size: i32) -> Result<u16, Refusal> {
        self.replayed().cell(row, size).ok_or(Refusal::OutOfBounds)
    }
}

#[tactic(auto, unfolding(crate::specs::Sheets::replay_states))]
impl Opens for ReplayMachine {
    fn open(heap: Global) -> Result<Self, AllocError> {
        let edits = Bounded::open(heap)?;
        Ok(ReplayMachine {
            oldest: Sheet::blank(),
            edits,
        })
    }
}
