//! A run over a script: the words of the command line, a session over the index file, and the reply to each command.
//! docs/SCRIPT.md has the commands, and docs/MODEL.md the machine that says what is due.
#![tactic(auto)]

mod machine;
mod run;
mod status;

pub use run::{serve, serve_with};
pub use status::Status;
