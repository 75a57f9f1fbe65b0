//! An ontology in parts: the genuine modules of the atoms on which no other depends, each a document of its own.
#![tactic(auto)]

pub use laws::parts_cover;
pub use room::Room;
pub use texts::write_parts;
pub use tops::parts;

mod closure;
mod going;
mod laws;
mod part;
mod room;
mod texts;
mod tops;
