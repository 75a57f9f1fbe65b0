//! The items of a session's input: lines with their payloads, and the end.
#![tactic(auto)]

pub use item::{Next, Payload, read_item};
pub use laws::one_split;
pub use line::Line;

mod item;
mod laws;
mod line;
mod payload;
