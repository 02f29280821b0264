//! Splitting a history: each of its parts is written as an index file of its own. docs/MODEL.md has the definitions.
#![tactic(auto)]

mod events;
mod outs;
mod parts;
mod splitting;
mod status;

pub use parts::PARTS_MAX;
pub use splitting::split;
pub use status::SplitStatus;
