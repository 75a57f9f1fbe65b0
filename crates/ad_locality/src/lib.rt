//! What the signature of an axiom is, and when an axiom is local: the definitions that all other crates cite,
//! and the columns of the locality table at a built-in name.
#![tactic(auto)]

pub use builtin::standing;
pub use surely::{EVERYTHING, INHABITED, NEITHER, NOTHING, Surely};

mod builtin;
mod surely;
