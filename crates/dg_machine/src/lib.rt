//! What the program answers: commands and replies, and, in `specs/`, the machine that keeps only the
//! events and a table of handles. docs/MODEL.md is their prose.
#![tactic(auto)]

mod command;
mod laws;
mod limits;
mod query;
mod reply;
mod selection;
mod stands;
mod texts;

pub use command::{Command, TIMES_MAX};
pub use laws::law_machine_is_determined;
pub use limits::{
    FIRST_HANDLE, HANDLE_MAX, INDEXES_MAX, LIVE_HANDLES_MAX, Limits, SCRIPT_BYTES_MAX,
    machine_limits,
};
pub use query::{Query, QueryHead};
pub use reply::{BodyLine, BodyLines, Head, Refusal, Reply};
pub use selection::Selection;
pub use stands::{Shown, Stands};
pub use texts::{KeyText, ValueText};
