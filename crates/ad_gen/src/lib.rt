//! Generated ontologies: classes in a tree, some with an equivalent one, up to 10,000 of them.
#![tactic(auto)]

pub use additions::generate;

mod additions;
mod axioms;
mod names;
