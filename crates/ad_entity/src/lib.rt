//! The entities of OWL 2, which of them the standard builds in, and sets of them.
#![tactic(auto)]

pub use builtin::is_reserved;
pub use entities::{Entity, EntityKind};
pub use seed::Seed;
pub use seen::{Naming, Seen};

mod builtin;
mod entities;
mod seed;
mod seen;
