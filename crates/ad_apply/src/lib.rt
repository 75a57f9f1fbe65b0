//! Batches of operations on an ontology: what they do to it, what is counted, and how long the document of the result is.
#![tactic(auto)]

pub use apply::{Outcome, apply_steps, logical_count};
pub use document::document_bytes;
pub use laws::batch_laws;
pub use steps::{Step, steps_of};
pub use working::Done;

mod apply;
mod document;
mod laws;
mod places;
mod steps;
mod working;
