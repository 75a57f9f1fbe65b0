//! Axioms in numbered slots, as a test and a list of cells, and the lists of slots that are looked up.
#![tactic(auto)]

pub use slot::Slot;

pub mod laws;
pub mod rising;
mod slot;
