//! The checker of the grammar: it finds the first fault of a text in one pass, and takes no memory.
#![tactic(auto)]

pub use depth::nesting;
pub use laws::{fault_is_in_none, nesting_of_fronts, one_first_fault, spelled_is_accepted};
pub use texts::{
    Phrase, Stop, Unsupported, check_axiom, check_class, check_document, check_edit,
    check_individual, check_literal, check_objprop, check_phrase, check_range, check_seed,
};

mod check;
mod depth;
mod items;
mod laws;
mod rows;
mod texts;
mod tokens;
