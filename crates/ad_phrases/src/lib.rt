//! The phrases of a text, each built from the token that it begins at.
#![tactic(auto)]

pub use laws::one_phrase;
pub use phrases::{
    BuildRefused, build_class, build_individual, build_literal, build_objprop, build_range,
};

mod ends;
mod laws;
mod phrase_tree;
mod phrases;
