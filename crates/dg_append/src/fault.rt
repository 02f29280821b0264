//! Why a batch was not added.

ghost use Rattle.std.specs.Prelude.{◌≡◌};
ghost use Rattle.dg_append.specs.declared.fault.BatchFault.TheVariants.{Memory};
ghost use Rattle.dg_append.specs.Faults.{of_prepare, of_retrieval};

use dg_current::PrepareFault;
use dg_graph::Column;
use dg_history::Key;
use dg_records::RecordFault;
use std::alloc::AllocError;
use thiserror::Error;

/// Why a batch was not added.
#[derive(Clone, Copy, Debug, PartialEq, Eq, Error)]
pub enum BatchFault {
    /// The least line that is refused, from 1, and the first reason against it.
    #[error("line {0} is refused for reason {1}")]
    BadChange(u32, u8),
    /// A line of the batch is a message, and the file is in its first form.
    #[error("a line is a message, and the file is in its first form")]
    OldFormat,
    /// The file would have so many bytes in use, and may have fewer: the two numbers.
    #[error("the file would have {0} bytes in use, more than {1}")]
    FileFull(u64, u64),
    /// The first column that is in no spelling among those of the records that lead to the older children of the
    /// interior nodes that the batch completes; or a delta that is due and has more elements than can be counted.
    #[error("the column {1:?} of the record {0:?} is damaged")]
    Damaged(Key, Column),
    /// A read of the index file failed.
    #[error("a read of the index file failed")]
    Read,
    /// Want of memory.
    #[error("out of memory")]
    Memory,
    /// A write or a sync of the index file failed.
    #[error("a write or a sync of the index file failed")]
    Store,
}

impl From<AllocError> for BatchFault {
    ghost from_gives = { λ _ fault. fault ≡ Memory };

    fn from(_: AllocError) -> BatchFault {
        BatchFault::Memory
    }
}

impl From<PrepareFault> for BatchFault {
    ghost from_gives = { λ from fault. fault ≡ of_prepare from };

    fn from(fault: PrepareFault) -> BatchFault {
        match fault {
            PrepareFault::BadChange { line, reason } => BatchFault::BadChange(line, reason),
            PrepareFault::Memory => BatchFault::Memory,
        }
    }
}

impl From<RecordFault> for BatchFault {
    ghost from_gives = { λ from fault. fault ≡ of_retrieval from };

    fn from(fault: RecordFault) -> BatchFault {
        match fault {
            RecordFault::Disk => BatchFault::Read,
            RecordFault::Damaged(key, column) => BatchFault::Damaged(key, column),
            RecordFault::Memory => BatchFault::Memory,
        }
    }
}
