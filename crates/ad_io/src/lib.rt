//! Bytes in and out: sources that are read, sinks that are written, and their counted faults.
#![tactic(auto)]

pub use in_memory::{MemSink, MemSource};
pub use reads::{ReadEnd, read_to_end};
pub use sink::{Put, Sink};
pub use source::{Got, Source};
pub use standard::{StdSink, StdSource};
pub use sure::{SureSink, SureSource};
pub use writes::{Failed, Wrote, append, put_all, put_each};

mod calls;
mod in_memory;
mod reads;
mod rest;
mod sink;
mod source;
mod standard;
mod store;
mod sure;
mod writes;
