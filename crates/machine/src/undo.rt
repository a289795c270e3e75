// The machine that keeps the newest sheet and, for each open edit, the row that it replaced.
use crate::OPEN_MAX;
use bounded::Bounded;
use sheet::{Row, Sheet};

pub mod moves;

// The row that an edit names, as it was before the edit; nothing where there is no such row.
#[derive(Clone, Copy)]
pub struct Replaced {
    number: i32,
    row: Option<Row>,
}

// The replaced rows stand oldest first.
#[derive(Drop)]
pub struct UndoMachine {
    newest: Sheet,
    replaced: Bounded<Replaced, OPEN_MAX>,
}
