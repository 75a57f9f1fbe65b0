//! The covers between the atoms of an ontology: for each atom those on which it depends with no other between.
#![tactic(auto)]

pub use found::Covers;
pub use search::covers;

mod below;
mod found;
mod largest;
mod search;
