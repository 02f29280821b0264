//! What the events of some time add, whether or not it is there later. docs/MODEL.md has the definitions.
#![tactic(auto)]

mod additions;

pub use additions::{added, push_added};
