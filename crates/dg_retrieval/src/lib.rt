//! Retrieval by plans: what leads to the graphs as of several instants, by one tree through the index of a history,
//! with the records that the tree enters, read once each. docs/MODEL.md has the definitions.
#![tactic(auto)]

mod beginnings;
mod branches;
mod graph_lead;
mod node_lead;
mod planned_index;
mod record_sets;
mod retrieval;
mod tree_parts;

pub use graph_lead::{Beginning, Leads};
pub use node_lead::{NodeLead, retrieve_node};
pub use planned_index::{ALL_COLUMNS, PlannedIndex, record_planner, shape_of};
pub use record_sets::{node_sets, plan_set};
pub use retrieval::{Retrieved, retrieve};
pub use tree_parts::{TreeParts, read_tree};
