//! Tests of what the program doesn't show of texts: phrases from a token on, single axioms, the list of a seed, and
//! prefixes. There is nothing here beside them.
#![tactic(auto)]

#[cfg(test)]
mod phrases;
#[cfg(test)]
mod readers;
#[cfg(test)]
mod rest;
