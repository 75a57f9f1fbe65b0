//! What is needed to find genuine modules: slots are grouped by signature, so that each signature is looked up once.
#![tactic(auto)]

pub use grouping::{Grouping, grouped};

mod grouping;
mod key;
