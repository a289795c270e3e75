// The machine that keeps the oldest sheet and the open edits.
use crate::OPEN_MAX;
use bounded::Bounded;
use sheet::{Edit, Sheet};

pub mod moves;

// The open edits stand oldest first.
#[derive(Drop)]
pub struct ReplayMachine {
    oldest: Sheet,
    edits: Bounded<Edit, OPEN_MAX>,
}
