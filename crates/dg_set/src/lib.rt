//! Sets of elements: a graph at an instant, kept as the strictly rising list of its elements.
//! docs/MODEL.md has the definitions.
#![tactic(auto)]

mod merge;
mod replace;
mod search;
mod set;

pub use dg_graph::Element;
pub use merge::are_apart;
pub use replace::replace_within;
pub use set::Set;
