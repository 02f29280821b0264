//! Verifying an index file: whether it is exactly what its own events determine, and the first record that is not.
//! docs/MODEL.md has the definitions.
#![tactic(auto)]

mod deltas;
mod due_deltas;
mod fault;
mod lists;
mod own_events;
mod pieces;
mod records;
mod stop;
mod times;
mod verification;

pub use fault::VerifyFault;
pub use verification::{read_own_events, verify};
