//! The readers of documents, edits, seeds and single axioms.
#![tactic(auto)]

pub use laws::one_outcome;
pub use texts::{ReadRefused, Unsupported, read_axiom, read_document, read_edit, read_seed};

mod laws;
mod texts;
