//! Finds the modules for the signatures of many axioms. On a side a module that was found before is joined as a whole
//! where a search meets an axiom that has it, so that a search costs what is new in it; and a star module is looked for
//! within what the modules of the two sides have in common. One that was found before is shared where it is found again,
//! and joined with the rest where it is a part.
#![tactic(auto)]

pub use sides::side_rows;
pub use stars::star_rows;

mod ahead;
mod join;
mod known;
mod look;
mod meets;
mod search;
mod sides;
mod stars;
mod whole;
