//! Commands on generated ontologies: they read nothing.
#![tactic(auto)]

pub use document::answer_generate;
pub use summary::answer_summary;

mod document;
mod summary;
