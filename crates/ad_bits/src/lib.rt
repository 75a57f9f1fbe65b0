//! Rows of bits: sets of numbers below a size, with their operations on whole vectors of words.
#![tactic(auto)]

pub use memory::Memory;
pub use row::Row;

mod lanes;
mod memory;
mod row;
mod words;
