//! The tokens of a text.
#![tactic(auto)]

pub use laws::{one_reading, tokens_in_place, tokens_say, written_is_read, written_shapes};
pub use lexer::tokens;
pub use token::{LexFault, LexRefused, Mark, Token, Tokens};

mod front;
mod kind;
mod laws;
mod lexer;
mod meaning;
mod token;
