//! The words of commands: what they ask for.
#![tactic(auto)]

pub use asked::{Asked, read_words};
pub use laws::{command_laws, one_asking};
pub use seed::named_seed;

mod asked;
mod laws;
mod seed;
mod size;
mod workers;
