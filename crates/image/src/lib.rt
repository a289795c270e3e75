// The image of a store: the bytes of what is durable in it, written and read back.
#![tactic(auto)]

mod checks;
pub mod contents;
pub mod fault;
pub mod laws;
mod parsing;
mod printing;
pub mod stores;

pub use contents::Contents;
pub use fault::{ImageFault, WriteFault};
pub use parsing::parse;
pub use stores::{read, write};
