// What keeps the states of a sheet while edits may yet be taken back.
#![tactic(auto)]

pub mod rehearsal;
pub mod replay;
pub mod state_machine;
pub mod undo;

pub use replay::ReplayMachine;
pub use state_machine::{Opens, StateMachine};
pub use undo::UndoMachine;

// At most so many edits are open.
pub const OPEN_MAX: usize = 16;
