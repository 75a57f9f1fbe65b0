//! A law on the grammar: what the prefixes of a text stand for doesn't matter for its form.
#![tactic(auto)]

pub use laws::any_meaning;

mod laws;
