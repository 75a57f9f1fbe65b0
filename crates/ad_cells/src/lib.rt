//! Axioms as lists of cells, and whether such an axiom is local for a set of numbers.
#![tactic(auto)]

pub use cell::{Cell, Test};
pub use laws::codes_shrink;
pub use operands::Operands;
pub use scan::is_local;

mod cell;
mod laws;
mod operands;
mod scan;
