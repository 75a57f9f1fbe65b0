//! Finds the modules of one side by a stack of symbols that wait and the index from symbols to axioms.
#![tactic(auto)]

pub use queue::Queue;
pub use search::take;
pub use waiting::{begin, reach_all};

mod queue;
mod search;
mod waiting;
