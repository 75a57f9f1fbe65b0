//! Tests of the signatures of axioms that are read from texts, and of the numbers of entities. There is nothing here beside
//! them.
#![tactic(auto)]

#[cfg(test)]
mod numbers;
#[cfg(test)]
mod signatures;
