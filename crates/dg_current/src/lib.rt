//! The current graph of a history, as its elements at the start and what changed since, and the events of
//! a batch that are not in it yet.
//! docs/MODEL.md has the definitions.
#![tactic(auto)]

mod completion;
mod element_entry;
mod element_id;
mod ends;
mod event_effect;
mod fault;
mod graph_test;
mod held;
mod held_graph;
mod held_set;
mod now;
mod search;
mod since_start;
mod sorted_graph;

pub use fault::{FromFault, PrepareFault};
pub use now::Now;
pub use since_start::SinceStart;
