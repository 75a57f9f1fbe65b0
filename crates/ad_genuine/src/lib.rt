//! Finds the genuine modules of all axioms from scratch: each signature is looked up once, and threads share the work.
#![tactic(auto)]

pub use finding::scratch;

mod finding;
mod found;
mod live;
mod parts;
mod tables;
