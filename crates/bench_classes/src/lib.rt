//! Ontologies of named classes as universes, for the benchmarks.
#![tactic(auto)]

pub use classes::{Hierarchy, put_class, put_classes};

mod classes;
