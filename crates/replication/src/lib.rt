// Replication at one server: the receiver of a leader's entries, and the leader itself.
#![tactic(auto)]

pub mod leading;
pub mod receiving;
