//! The module of an ontology and its document, defined; laws of the syntax trees, and lemmas on them for the crates above.
#![tactic(auto)]

pub use carried::goes_with;
pub use laws::{local_for_fewer, same_entity_decides, side_of_own_signature};

mod carried;
mod laws;
