//! Plans over an index: the graph of the index (its nodes and its edges, each weighing the bytes that it
//! reads), the least cost of each node, and from these the plan of one node, with potentials that certify
//! it, and the tree of several.
#![tactic(auto)]

mod build;
mod laws;
mod lengths;
mod links;
mod node_order;
mod nodes;
mod planner;
mod tree;

pub use build::Base;
pub use dg_history::NodeId;
pub use dg_path::Route;
pub use dg_plan::{Edge, Via, Way};
pub use laws::{
    law_graph_of_history, law_nodes_are_distinct, law_nodes_are_listed, law_nodes_are_reached,
    law_plans_are_certificates, law_points_of_history,
};
pub use planner::Planner;
pub use tree::{Graft, Tree};
