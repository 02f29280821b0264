//! The exact steps between nodes of an index, from one of them to the next, by the records of one tree: no set of a node
//! is made. docs/MODEL.md has the definitions.
#![tactic(auto)]

mod between;
mod crossing;
mod laws;
mod paths;
mod record_steps;
mod tree;

pub use laws::law_steps_are_exact;
pub use record_steps::node_steps;
pub use tree::tree_steps;
