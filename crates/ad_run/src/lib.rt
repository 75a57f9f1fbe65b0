//! The commands of the program: what the words ask for is read, found and written.
#![tactic(auto)]

pub use ad_command::command_laws;
pub use ad_documents::document_laws;
pub use ad_sweep::sweep;
pub use run::run_once;
pub use status::{memory, usage};

mod generated;
mod run;
mod script;
mod status;
