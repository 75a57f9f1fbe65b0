//! Commands on a document: its text is read, and what it is asked for is found and written; or it is refused.
#![tactic(auto)]

pub use answer::Answer;
pub use atoms::answer_atoms;
pub use laws::document_laws;
pub use module::answer_module;
pub use parts::answer_split;

mod answer;
mod atoms;
mod laws;
mod module;
mod ontology;
mod parts;
