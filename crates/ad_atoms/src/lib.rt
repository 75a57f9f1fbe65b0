//! Finds the atoms of an ontology from the genuine modules of its axioms.
#![tactic(auto)]

pub use numbering::atoms;

mod numbering;
