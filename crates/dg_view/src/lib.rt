//! Queries of one graph of the pool.
#![tactic(auto)]

mod adjacency;
mod answers;
mod elements;
mod ends;
mod queries;
mod view;
mod walk;

pub use adjacency::Adjacency;
pub use answers::NodeView;
pub use dg_query::{Counts, KeyValue, Neighbour, Side};
pub use view::View;
