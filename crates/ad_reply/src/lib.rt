//! The replies of a session.
#![tactic(auto)]

pub use answers::{edit_reply, export_reply, genuine_reply, module_reply};
pub use atoms::{Told, atom_reply, atoms_reply};
pub use bodies::atoms_body;
pub use cause::{Cause, causes_differ};
pub use refusal::{Refusal, explain, refuse};
pub use stat::stat_reply;

mod answers;
mod atoms;
mod bodies;
mod cause;
mod counts;
mod refusal;
mod stat;
