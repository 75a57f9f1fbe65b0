//! Finds the decomposition of an ontology from scratch: the genuine modules of its axioms, and for each kind the atoms
//! with the covers between them.
#![tactic(auto)]

pub use decomposition::Decomposition;
pub use order::live_slots;

mod decomposition;
mod of_kind;
mod order;
