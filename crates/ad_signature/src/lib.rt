//! The signatures of axioms as lists of entities, and numbers for entities.
#![tactic(auto)]

pub use listing::signature;
pub use refused::SymbolRefused;
pub use symbols::Symbols;

mod kind_numbers;
mod listing;
mod numbers;
mod refused;
mod spare;
mod symbols;
