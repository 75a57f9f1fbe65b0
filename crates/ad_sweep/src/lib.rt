//! The module of an ontology by plain sweeps over its axioms, and the document of the module.
#![tactic(auto)]

pub use sweeping::{document_of, module_of, sweep};

mod carried;
mod chosen;
pub mod laws;
mod rounds;
mod sweeping;
