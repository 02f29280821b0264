//! One command after another over a session: its index, its names, its current graph and recent events, its live
//! handles, and the answer to each command. docs/SCRIPT.md has the commands, and
//! docs/MODEL.md the machine that says what is due.
#![tactic(auto)]

mod batch_command;
mod creation_command;
mod graph_sets;
mod laws;
mod needs;
mod retrieval;
mod session;
mod session_fault;

pub use dg_batch::Stop;
pub use dg_start::StartFault;
pub use laws::law_begins_are_determined;
pub use session::Session;
pub use session_fault::SessionFault;
