//! What every crate of owlad speaks of: texts, limits, the kinds of module, and decimal numbers.
#![tactic(auto)]

pub use decimal::{are_digits, digits, number};
pub use limits::{Kind, Limits, Side, Which};
pub use memory::Memory;
pub use word::Word;

mod decimal;
mod limits;
mod memory;
mod word;
