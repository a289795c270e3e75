// One server, its machine apart: what its store remembers and what it holds besides; its log, its terms and its elections.
#![tactic(auto)]

use protocol::Role;
use store::Store;

pub mod elections;
pub mod ids;
pub mod log;
pub mod opening;

// How far another server is: the number of the entry to send it next, and through which it is known to agree.
#[derive(Clone, Copy, Debug, PartialEq, Eq)]
pub struct Progress {
    pub next: u32,
    pub matched: u16,
}

// Kept: no impl Model, since the protocol's server holds functions, for which the check finds no code.
#[derive(Drop)]
pub struct Node<S: Store + Drop> {
    pub up: bool,
    pub store: S,
    // Kept: beside what belongs to a candidate or a leader, since the rules keep both when a role ends.
    pub role: Role,
    // A candidate's voters; a leader's progress with each server.
    pub voters: [bool; 3],
    pub progress: [Progress; 3],
    pub commit: u32,
    pub applied: u32,
}
