// A store that keeps its term, its vote and its entries as the records of an image, in bytes of its own.
#![tactic(auto)]

pub mod memory;

pub use memory::ByteStore;
