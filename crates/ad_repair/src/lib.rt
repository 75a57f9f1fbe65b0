//! Which genuine modules are to be found anew after a change, and the rows that stay.
#![tactic(auto)]

pub use planned::Plan;
pub use planning::plan;

mod filling;
mod foreign;
mod marks;
mod planned;
mod planning;
mod setting;
mod touched;
