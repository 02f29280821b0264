//! Least walks in a graph whose nodes and edges are numbered from 0: the least cost of each node, the plan
//! of a target, what certifies it, and the tree of several targets. A walk costs
//! the weight of its edges, in bytes, and then the number of its edges; among walks that cost the same, a
//! plan takes the edge with the least number, from the target back. Beside the search stands the check of a written
//! certificate, which has no word of the search. What a walk, a plan, a certificate and a
//! tree are stands in `dg_plan`.
#![tactic(auto)]

mod adjacency;
mod claim;
mod laws;
mod plan;
mod potentials;
mod route;
mod same_node;
mod search;
mod table;
mod tree;
mod verdict;
mod walk;

pub use adjacency::{Adjacency, thread};
pub use laws::law_plans_are_certified;
pub use plan::plan_to;
pub use route::{Route, route_to};
pub use search::{Cost, Link, UNREACHED, search_limits};
pub use table::{costs_from, grow};
pub use tree::{Grafted, graft};
pub use verdict::certify;
