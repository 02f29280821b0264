//! What a plan through the index of a history is: walks in a graph whose edges are numbered, what they
//! cost, the least plan of a node and what certifies it, and the tree of several targets; and the graph of
//! an index, its nodes and its edges in their order. The plain types of an edge and of a certificate, and,
//! in `specs/`, the definitions. docs/MODEL.md is their prose.
#![tactic(auto)]

mod certificate;
mod edge;
mod laws;

pub use certificate::{PlanLine, Verdict};
pub use edge::{Edge, Via, Way};
pub use laws::{law_certificates_hold, law_plans_are_least, law_plans_are_one};
