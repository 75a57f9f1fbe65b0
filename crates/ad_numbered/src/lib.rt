//! Ontologies whose logical axioms stand in numbered slots, and whose entities have numbers.
#![tactic(auto)]

pub use ontology::NumberedOntology;
pub use refused::NumberRefused;

mod entering;
mod making;
mod ontology;
mod placing;
mod refused;
