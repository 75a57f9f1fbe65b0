//! What is written in the canonical text is read back: which trees can be written, and the laws of the round trip.
//! There is no code.
#![tactic(auto)]

pub use laws::{
    read_is_spellable, written_axiom_is_read, written_axioms_differ, written_document_is_read,
    written_nests_alike,
};

mod laws;
