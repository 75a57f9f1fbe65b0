//! Finds the modules of every kind by a half that finds those of one side. The star module is found by taking the bottom
//! module, the top module of it, and so on, until nothing changes.
#![tactic(auto)]

pub use starred::Starred;

mod starred;
