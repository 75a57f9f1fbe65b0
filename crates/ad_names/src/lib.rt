//! The entities that occur in axioms, handed one by one to whoever collects them, and sets of names.
#![tactic(auto)]

pub use collect::Collect;
pub use lists::take_entities;
pub use names::Names;
pub use occurrences::take_axiom;

mod classes;
mod collect;
mod lists;
mod names;
mod occurrences;
mod ranges;
mod word_set;
