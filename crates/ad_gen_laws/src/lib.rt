//! What holds of every generated ontology: its axioms are distinct, and it passes no limit of the program.
#![tactic(auto)]

pub use laws::{generated_are_distinct, generated_fit};

mod laws;
