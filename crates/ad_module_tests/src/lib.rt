//! Tests of modules by sweeps and over numbered axioms, of ontologies that are read from texts. There is nothing here beside
//! them.
#![tactic(auto)]

#[cfg(test)]
mod changes;
#[cfg(test)]
mod modules;
#[cfg(test)]
mod numbered;
