//! What the atoms of an ontology are and how they depend on each other; and their laws, each the contract of a function
//! that does nothing.
#![tactic(auto)]

pub use laws::{
    atoms_are_classes, covers_are_between, live_have_rows, nested_depends, rows_nest,
    tables_are_one, unaffected_stay,
};

mod laws;
