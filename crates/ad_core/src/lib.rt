//! The machine: a log of accepted edits, its newest edition, and for each session the edition that it has entered.
#![tactic(auto)]

pub use laws::machine_laws;
pub use machine::Machine;

mod laws;
mod look;
mod machine;
mod owners;
