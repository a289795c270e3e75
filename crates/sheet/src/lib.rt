// The measure sheet: eight rows by twelve sizes, and the rules by which edits change it.
#![tactic(auto)]

mod grading;
pub mod kind;
mod rules;
pub mod starred;
pub mod types;

pub use kind::{Kind, UnknownKind};
pub use types::{Edit, Row, Sheet};
