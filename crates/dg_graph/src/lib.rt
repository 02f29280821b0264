//! What a graph, an event and a change are: the plain types, and, in `specs/`, the definitions that
//! every contract of the crates above cites. docs/MODEL.md is their prose.
#![tactic(auto)]

mod element;
mod event;
mod function;
mod limits;
mod placed;

pub use element::{Column, Columns, Element};
pub use event::{
    Body, Change, Event, REASON_EDGE_EXISTS, REASON_EDGE_IN_USE, REASON_FORM, REASON_NO_ATTRIBUTE,
    REASON_NO_EDGE, REASON_NO_END, REASON_NO_NODE, REASON_NODE_EXISTS, REASON_NODE_IN_USE,
    REASON_TIME, What, reasons,
};
pub use function::Function;
pub use limits::{SKEW_MAX, TIME_MAX, graph_limits};
pub use placed::Placed;
