//! The syntax trees of OWL 2 ontologies, as the Structural Specification names them.
#![tactic(auto)]

pub use ad_entity::{Entity, EntityKind, Naming, Seed, Seen};
pub use axioms::{Axiom, Noted};
pub use classes::{Class, Classes};
pub use edits::{Batch, Op, Sign};
pub use lent::Lent;
pub use literals::{Facet, Facets, Literal, Literals};
pub use many::Many;
pub use names::{Individual, Individuals, ObjProp, ObjProps, Words};
pub use notes::{Annotation, Annotations, Subject, Value};
pub use one::One;
pub use ranges::{Range, Ranges};

mod axioms;
mod classes;
mod copies;
mod edits;
mod lent;
mod literals;
mod many;
mod names;
mod notes;
mod one;
mod ranges;
