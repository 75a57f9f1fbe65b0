//! Tests of the crates that all others stand on.
#![tactic(auto)]

#[cfg(test)]
mod adapters;
#[cfg(test)]
mod decimals;
#[cfg(test)]
mod items;
#[cfg(test)]
mod meanings;
#[cfg(test)]
mod reads;
#[cfg(test)]
mod requests;
#[cfg(test)]
mod rows;
#[cfg(test)]
mod tokens;
#[cfg(test)]
mod words;
#[cfg(test)]
mod writes;
