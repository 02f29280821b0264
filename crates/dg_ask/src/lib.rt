//! What is asked of an index and of the graphs of handles, and what is kept between questions: plans and their
//! certificates, the listing of the records, and the queries of a handle. docs/SCRIPT.md has the commands.
#![tactic(auto)]

mod kept_adjacency;
mod kept_planner;
mod laws;
mod plans;
mod queries;
mod record_listing;

pub use kept_adjacency::KeptAdjacency;
pub use kept_planner::KeptPlanner;
pub use laws::law_printed_plans_are_valid;
pub use plans::{has_node, judge, plan_reply, point_of, span};
pub use queries::{AskedGraph, answer, is_of_nodes};
pub use record_listing::tree_reply;
