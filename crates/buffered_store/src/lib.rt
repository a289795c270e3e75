// A layer over any store, which holds back up to 8 entries.
#![tactic(auto)]

pub mod layer;

pub use layer::BufferedStore;

#[cfg(test)]
mod tests;
