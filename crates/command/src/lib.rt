// The lines that the program table-run reads, as commands, and the lines that it prints.
#![tactic(auto)]

pub mod line;
pub mod read;
pub mod reply;
pub mod types;

pub use line::Line;
pub use read::command_in;
pub use reply::{Reply, answer_line};
pub use types::{Command, Found, Problem, Told};
