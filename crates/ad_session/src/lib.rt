//! A session: requests are read, answered and counted, until the input ends.
#![tactic(auto)]

pub use answers::answer;
pub use ends::{End, Pause};
pub use laws::{reply_laws, session_laws};
pub use sessions::session;
pub use talking::talk;
pub use work::{Talk, Work};

mod answers;
mod ends;
mod laws;
mod modules;
mod queries;
mod sessions;
mod talking;
mod turn;
mod work;
