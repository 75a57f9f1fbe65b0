//! The summary of an edition: its counts, and of each kind how many atoms it has and how often one covers another.
#![tactic(auto)]

pub use summary::summary_body;

mod counts;
mod lines;
mod summary;
