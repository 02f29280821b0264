//! Reading the records of an index: the bytes of their columns, and the events that these spell. docs/MODEL.md has the
//! definitions.
#![tactic(auto)]

mod bytes;
mod delta;
mod events;
mod fault;
mod laws;

pub use bytes::{is_events, read_bytes};
pub use events::read_events;
pub use fault::RecordFault;
pub use laws::law_deltas_are_told_by_read;
