//! The request lines of a session.
#![tactic(auto)]

pub use laws::one_asking;
pub use request::{Request, read_request};

mod laws;
mod request;
