//! The document of an ontology's module for a seed, found by the index over slots, and of other axioms that are chosen by
//! their slots, written without memory.
#![tactic(auto)]

pub use body::module_body;
pub use choice::Choice;
pub use document::{document_size_of, write_document_of};
pub use laws::found_documents;
pub use room::Room;

mod body;
mod choice;
mod document;
mod found;
mod laws;
mod room;
mod seeds;
