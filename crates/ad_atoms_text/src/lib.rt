//! The text that lists the atoms of an ontology with their covers, and its length.
#![tactic(auto)]

pub use laws::atoms_text_fits;
pub use listing::{atoms_size, write_atoms};

mod laws;
mod line;
mod listing;
