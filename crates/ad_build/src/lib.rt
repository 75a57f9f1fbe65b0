//! The trees that the tokens of a text spell.
#![tactic(auto)]

pub use ad_prefixes::{PrefixRefused, Prefixes, first_unknown, read_prefixes};
pub use build::{
    build_axiom, build_class, build_individual, build_literal, build_objprop, build_range,
};
pub use laws::{declarations_in_front, one_tree};
pub use texts::{build_axioms, build_entities, build_operations};

mod build;
mod laws;
mod reads;
mod texts;
mod words;
