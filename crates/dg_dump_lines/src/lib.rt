//! The lines of the script that makes a history, put behind one another into bytes: the command that makes an index, the
//! command of a batch, and the line of each event.
#![tactic(auto)]

mod commands;
mod event_lines;
#[cfg(test)]
mod tests;
mod word;

pub use commands::{BatchVerb, put_batch_command, put_creation};
pub use event_lines::{put_event, put_events};
