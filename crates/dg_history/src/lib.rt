//! What the history of a graph is, and its nodes, parameters and limits: the plain types, and, in `specs/`, the
//! definitions. docs/MODEL.md is their prose.
#![tactic(auto)]

mod form;
mod limits;
mod node;
mod params;

pub use form::Form;
pub use limits::{BATCH_LINES_MAX, EVENTS_MAX, FILE_BYTES_MAX, history_limits};
pub use node::{Key, NodeId};
pub use params::{ARITY_MAX, ARITY_MIN, LEAF_MAX, LEAF_MIN, Params, are_parameters, is_function};
