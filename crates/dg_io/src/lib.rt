//! Bytes in and out: the traits `Source` and `Sink`, their forms in memory and over std's `Read` and
//! `Write`, and `Lines`, which cuts what a source gives into lines.
#![tactic(auto)]

mod lines;
mod memory;
mod sink;
mod source;
mod standard;

pub use lines::{Line, LineFault, Lines};
pub use memory::{MemorySink, MemorySource, OutOfMemory};
pub use sink::{Sink, write_whole};
pub use source::{Failed, Source};
pub use standard::{StdSink, StdSource};
