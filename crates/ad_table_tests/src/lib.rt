//! Tests of the table of locality, row by row, on expressions and axioms that are read from texts. There is nothing here
//! beside them.
#![tactic(auto)]

#[cfg(test)]
mod axioms;
#[cfg(test)]
mod classes;
#[cfg(test)]
mod columns;
#[cfg(test)]
mod ranges;
