//! Tests of what no run of the program shows: sources, sinks and notes that fail in mid-stream or move few bytes at a
//! call, limits below the standard ones, and calls whose answers the program doesn't print. There is nothing here beside
//! them.
#![tactic(auto)]

#[cfg(test)]
mod commands;
#[cfg(test)]
mod dialogues;
#[cfg(test)]
mod editions;
#[cfg(test)]
mod gates;
#[cfg(test)]
mod limits;
#[cfg(test)]
mod machines;
#[cfg(test)]
mod replies;
#[cfg(test)]
mod sessions;
