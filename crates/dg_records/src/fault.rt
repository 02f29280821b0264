//! Why a record was not read.

ghost use Rattle.std.specs.Prelude.{◌≡◌};
ghost use Rattle.dg_records.specs.declared.fault.RecordFault.TheVariants.{Memory};
ghost use Rattle.dg_records.specs.Faults.{of_fetch};

use dg_file::FetchFault;
use dg_graph::Column;
use dg_history::Key;
use std::alloc::{AllocError, AllocFailed};
use thiserror::Error;

/// Why a record was not read, or what rests on records was not made.
#[derive(Clone, Copy, Debug, PartialEq, Eq, Error)]
pub enum RecordFault {
    /// A read of the index file failed.
    #[error("a read of the index file failed")]
    Disk,
    /// The bytes of this column of this record are no column.
    #[error("the column {1:?} of the record {0:?} is damaged")]
    Damaged(Key, Column),
    /// Memory ran out.
    #[error("out of memory")]
    Memory,
}

impl From<AllocError> for RecordFault {
    ghost from_gives = { λ _ e. e ≡ Memory };

    fn from(_error: AllocError) -> RecordFault {
        RecordFault::Memory
    }
}

impl<T: Drop> From<AllocFailed<T>> for RecordFault {
    ghost from_gives = { λ _ e. e ≡ Memory };

    fn from(_error: AllocFailed<T>) -> RecordFault {
        RecordFault::Memory
    }
}

impl From<FetchFault> for RecordFault {
    ghost from_gives = { λ read fault. fault ≡ of_fetch read };

    fn from(read: FetchFault) -> RecordFault {
        match read {
            FetchFault::Disk => RecordFault::Disk,
            FetchFault::Memory => RecordFault::Memory,
        }
    }
}
