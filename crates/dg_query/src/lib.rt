//! What is asked of a graph, and what the answers are made of. The definitions stand in `specs/`, as functions of the
//! set of a graph's elements; docs/MODEL.md is their prose.
#![tactic(auto)]

mod answers;

pub use answers::{Counts, KeyValue, Neighbour, Side};
