//! Decimal numbers, lines of words, and pens: what writes a text to a sink, or counts its bytes.
#![tactic(auto)]

pub use decimal::Decimal;
pub use inked::Inked;
pub use pen::Pen;
pub use scale::Scale;

mod decimal;
mod inked;
mod page;
mod pen;
mod scale;
