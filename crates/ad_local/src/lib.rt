//! Syntactic locality on both sides: the one table, read as code.
#![tactic(auto)]

pub use axioms::is_local;
pub use classes::class_surely;
pub use names::{name_surely, property_surely};
pub use ranges::range_surely;

mod axioms;
mod classes;
mod names;
mod operands;
mod ranges;
mod table;
