//! What is found of the modules of all axioms: the rows of slots, the rows of tasks, and the atoms.
#![tactic(auto)]

pub use atoms::Atoms;
pub use results::Results;
pub use rows::Rows;

mod atoms;
mod results;
mod rows;
