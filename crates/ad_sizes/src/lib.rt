//! The sizes of the rows of all slots, kept by their binary places, so that the largest of many are found by few passes.
#![tactic(auto)]

pub use sizes::Sizes;

mod places;
mod sizes;
