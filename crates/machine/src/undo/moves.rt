ghost use Rattle.std.specs.Prelude.{◌≡◌, ℕ, List, length};
ghost use Rattle.sheet.specs.Cells.{cells_of};
ghost use Rattle.sheet.specs.Rules.{opening, cell_at, next};
ghost use Rattle.machine.specs.Sheets.{put_back, undo_states};
ghost use borrow.Author.Rules.{rules};
ghost use Rattle.sheet.specs.Rules;
ghost use Rattle.machine.specs.Counts;
ghost use Rattle.machine.specs.StepsBack.{back_count};

use super::{Replaced, UndoMachine};
use crate::state_machine::{Opens, StateMachine};
use bounded::Bounded;
use refusal::Refusal;
use sheet::{Edit, Sheet};
use std::alloc::{AllocError, Global};

// What takes the edit back from the sheet after it.
fn replaced_by(sheet: &Sheet, edit: Edit) -> Replaced
    ensures { put_back (next (cells_of sheet.now) edit) result ≡ cells_of sheet.now }
{
    Replaced {
        number: edit.row,
        row: sheet.row(edit.row),
    }
}

fn put_back(sheet: &mut Sheet, replaced: Replaced)
    ensures { cells_of sheet.new ≡ put_back (cells_of sheet.old) replaced }
{
    if let Some(row) = replaced.row {
        sheet.replace_row(replaced.number, row);
    }
}

#[tactic(auto, using(crate::specs::StepsBack::back_count, crate::specs::StepsBack::back_newest, crate::specs::StepsBack::back_more, crate::specs::StepsBack::back_oldest, crate::specs::StepsBack::back_undone), unfolding(crate::specs::Sheets::undo_states))]
impl StateMachine for UndoMachine {
    ghost State = { List (List ℕ) };

    ghost opening = { opening };

    ghost next = { next };

    ghost cell = { cell_at };

    ghost states = { undo_states };

    ghost idle = { unfold Rules.next in Prim.search rules };

    ghost counted = { unfold undo_states in λ m. Counts.counted _ (length m.replaced.items.items) (back_count (cells_of m.newest) m.replaced.items.items) m.replaced.few };

    fn apply(&mut self, edit: Edit) -> Result<(), Refusal> {
        self.replaced.push(replaced_by(&self.newest, edit))?;
        self.newest.change(edit);
        Ok(())
    }

    fn undo(&mut self) -> Result<(), Refusal> {
        let last = self.replaced.pop()?;
        put_back(&mut self.newest, last);
        Ok(())
    }

    fn settle(&mut self) -> Result<(), Refusal> {
        let _ = self.replaced.pop_first()?;
        Ok(())
    }

    fn reset(&mut self) {
        self.newest = Sheet::blank();
        self.replaced.clear();
    }

    fn read(&self, row: i32, size: i32) -> Result<u16, Refusal> {
        self.newest.cell(row, size).ok_or(Refusal::OutOfBounds)
    }
}

#[tactic(auto, unfolding(crate::specs::Sheets::undo_states))]
impl Opens for UndoMachine {
    fn open(heap: Global) -> Result<Self, AllocError> {
        let replaced = Bounded::open(heap)?;
        Ok(UndoMachine {
            newest: Sheet::blank(),
            replaced,
        })
    }
}
