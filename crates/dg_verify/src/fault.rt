//! Why an index file was not verified.

use thiserror::Error;

/// Why an index file was not verified.
#[derive(Clone, Copy, Debug, PartialEq, Eq, Error)]
pub enum VerifyFault {
    /// The disk failed.
    #[error("a call of the disk failed")]
    Disk,
    /// Want of memory.
    #[error("out of memory")]
    Memory,
}
