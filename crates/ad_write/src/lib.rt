//! The canonical text of axioms and documents.
#![tactic(auto)]

pub use writes::{
    EMPTY_DOCUMENT, document_length, size, write_document, write_foot, write_head, write_line,
    write_to,
};

mod axioms;
mod classes;
pub mod keywords;
mod literals;
mod names;
mod notes;
mod ranges;
mod shapes;
mod spelled;
mod writes;
