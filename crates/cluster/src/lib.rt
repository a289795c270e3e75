// A cluster of three servers over any store and any machine.
#![tactic(auto)]

mod calls;
mod posting;
mod reads;
pub mod state;
mod tickets;

pub use protocol::Status;
pub use server::{Outcome, Proposed, Ticket, Unclosed};
pub use state::Cluster;
