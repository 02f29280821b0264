//! The shape of an index: which nodes it has, which records the segment of a batch has, and the
//! catalogue, which tells how long each record is and at which byte it begins, and from which node the
//! graph as of an instant is reached.
#![tactic(auto)]

mod catalogue;
mod point;
mod segment_keys;
mod shape;

pub use catalogue::{
    BYTES_MAX, Catalogue, LISTS_MAX, catalogue_limits, column_length, column_offset,
};
pub use dg_history::{Key, NodeId};
pub use dg_index::{Ends, Entry, Row};
pub use segment_keys::{keys_due, leaves};
pub use shape::Shape;
