//! Tests of genuine modules, found by threads over a universe of axioms that are read from texts, and of the atoms that
//! these define, with the covers between them.
#![tactic(auto)]

#[cfg(test)]
mod atoms;
#[cfg(test)]
mod genuine;
#[cfg(test)]
mod universe;
