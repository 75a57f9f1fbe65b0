//! Editions: what an ontology is after some edits, with its decomposition, and how the next one is made.
#![tactic(auto)]

use ad_extract::Queue;
use ad_star::Starred;
pub use draft::{Draft, Entry};
pub use edition::Edition;
pub use laws::log_laws;
pub use look::{Look, NoLook};
pub use receipts::{Receipt, Refused};

/// What finds modules of every kind.
pub type Bench = Starred<Queue>;

mod decomposed;
mod draft;
mod edition;
mod laws;
mod look;
mod next;
mod receipts;
