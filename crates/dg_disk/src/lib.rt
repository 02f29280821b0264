//! The disk that an index stands on: the trait `Disk`, and its form in memory for tests.
#![tactic(auto)]

mod disk;
mod memory;

pub use disk::{Disk, Failed};
pub use memory::MemoryDisk;
