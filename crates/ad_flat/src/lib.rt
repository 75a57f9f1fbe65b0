//! The universe of an ontology's axioms, in numbered slots that are freed and used again.
#![tactic(auto)]

pub use adding::add;
pub use flat::FlatUniverse;
pub use laws::modules_of_trees;

mod adding;
mod axioms;
mod entries;
mod flat;
mod laws;
mod lists;
mod numbers;
mod rows;
mod shared;
mod slots;
