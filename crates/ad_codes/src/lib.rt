//! The axioms of an ontology as codes: lists of cells that stand for their trees.
#![tactic(auto)]

pub use encoding::{Coded, encode};
pub use laws::codes_are_trees;

mod axioms;
mod buffer;
mod classes;
mod encoding;
mod laws;
mod names;
mod ranges;
mod tested;
