//! Writing the parts of a history: each becomes an index file of its own, batch by batch. docs/MODEL.md has the definitions.
#![tactic(auto)]

mod batches;
mod fault;
mod names;
mod part;

pub use fault::PartFault;
pub use part::write_part;
