//! What the genuine modules and the atoms of an ontology are, and the laws that the numbered ones are these.
#![tactic(auto)]

pub use laws::{one_shape, rows_are_genuine, shape_exists, shapes_of_slots, whole_atoms};

mod laws;
