//! The prefixes of a text: those that it declares in front, and the standard ones.
#![tactic(auto)]

pub use heads::{PrefixRefused, read_prefixes};
pub use prefixes::Prefixes;
pub use unknown::first_unknown;

mod heads;
mod prefixes;
mod unknown;
