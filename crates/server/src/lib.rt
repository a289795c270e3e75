// One server with its machine: the calls that it answers, and the messages that it hears.
#![tactic(auto)]

use machine::StateMachine;
use node::Node;
use store::Store;

pub mod calls;
pub mod following;
pub mod steps;
pub mod ticketing;
pub mod tickets;

pub use tickets::{Outcome, Ticket, Unclosed};

#[derive(Drop)]
pub struct Server<S: Store + Drop, M: StateMachine + Drop> {
    pub node: Node<S>,
    pub machine: M,
}

// What a proposal is known by: the number and the term of its entry.
#[derive(Clone, Copy, Debug, PartialEq, Eq)]
pub struct Proposed {
    pub number: u32,
    pub term: u32,
}
