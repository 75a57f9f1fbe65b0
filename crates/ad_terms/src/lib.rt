//! Terms: what the tokens of a text stand for, the keywords, and the tree of a keyword and its arguments.
#![tactic(auto)]

pub use axioms::axiom_of;
pub use classes::class_of;
pub use item::StackItem;
pub use keyword::{
    AxiomWord, ClassWord, CountWord, EndWord, FactWord, FillerWord, JoinWord, Keyword, NamesWord,
    RangeWord, SetWord, TraitWord,
};
pub use ranges::range_of;
pub use reads_as::{Lower, ReadsAs};
pub use shapes::{each, next, next_two, one, two};
pub use stack::Stack;

mod axioms;
mod classes;
mod item;
mod key;
mod keyword;
mod ranges;
mod reads_as;
mod shapes;
mod stack;
