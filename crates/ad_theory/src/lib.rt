//! What a module is, and its laws, over axioms and entities of any type; and what the crates that find modules over
//! numbered axioms and entities promise each other.
#![tactic(auto)]

pub use extractor::{Extractor, Half};
pub use row::empty_row;
pub use tally::Tally;
pub use task::Task;
pub use universe::Universe;

mod extractor;
pub mod laws;
mod row;
mod tally;
mod task;
mod universe;
