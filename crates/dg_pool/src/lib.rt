//! The pool of graphs: the current graph and the retrieved ones, overlaid in one list of cells.
#![tactic(auto)]

mod changes;
mod counts;
mod current;
mod lengths;
mod masks;
mod members;
mod pool;
mod room;
mod slots;
mod sweep;
mod targets;

pub use dg_cells::Cursor;
pub use dg_query::Counts;
pub use pool::{AttachFault, InUse, Pool, Swept};
pub use slots::{Base, Slot};
