//! Tests of the tables of modules, atoms and covers, on axioms whose modules are written down, and of the laws at a
//! universe. There is nothing here beside them.
#![tactic(auto)]

#[cfg(test)]
mod atoms;
#[cfg(test)]
mod counts;
#[cfg(test)]
mod covers;
#[cfg(test)]
mod found;
#[cfg(test)]
mod laws;
#[cfg(test)]
mod loose;
#[cfg(test)]
mod tables;
