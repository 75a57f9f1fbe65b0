//! Tests of what the program doesn't show of written texts: sinks that fail in mid-stream, and the parts of a document.
#![tactic(auto)]

#[cfg(test)]
mod parts;
#[cfg(test)]
mod sinks;
