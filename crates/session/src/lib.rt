// A cluster that is run by commands: by one, by a list of them, or by lines of text.
#![tactic(auto)]

mod answering;
mod making;
mod opening;
mod running;

pub use answering::answer_line;
pub use making::make;
pub use opening::{open, parts};
pub use running::run_commands;

#[cfg(test)]
mod tests;
