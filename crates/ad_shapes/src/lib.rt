//! What is seen of an ontology's atoms by their numbers alone, and the law that axioms and their numbers give the same.
#![tactic(auto)]

pub use laws::shapes_are_same;

mod laws;
