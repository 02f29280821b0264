//! Dumping an index: the script that makes it, from a disk to a sink.
#![tactic(auto)]

mod changes;
mod dumping;
mod range;
mod script;
mod span;
mod status;
mod text;

pub use dumping::{dump, dump_span};
pub use span::Span;
pub use status::{DumpFault, DumpStatus};
