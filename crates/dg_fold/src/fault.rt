//! Why parts were not composed.

ghost use Rattle.std.specs.Prelude.{◌≡◌};
ghost use Rattle.dg_fold.specs.declared.fault.FoldFault.TheVariants.{Memory};
ghost use Rattle.dg_fold.specs.Faults.{of_fold};

use dg_graph::Column;
use dg_history::Key;
use dg_records::RecordFault;
use std::alloc::{AllocError, AllocFailed};
use thiserror::Error;

/// Why parts were not composed.
#[derive(Clone, Copy, Debug, PartialEq, Eq, Error)]
pub enum FoldFault {
    /// The bytes of this column of this record are no column.
    #[error("the column {1:?} of the record {0:?} is damaged")]
    Damaged(Key, Column),
    /// Memory ran out.
    #[error("out of memory")]
    Memory,
}

impl From<AllocError> for FoldFault {
    ghost from_gives = { λ _ e. e ≡ Memory };

    fn from(_error: AllocError) -> FoldFault {
        FoldFault::Memory
    }
}

impl<T: Drop> From<AllocFailed<T>> for FoldFault {
    ghost from_gives = { λ _ e. e ≡ Memory };

    fn from(_error: AllocFailed<T>) -> FoldFault {
        FoldFault::Memory
    }
}

impl From<FoldFault> for RecordFault {
    ghost from_gives = { λ folded fault. fault ≡ of_fold folded };

    fn from(folded: FoldFault) -> RecordFault {
        match folded {
            FoldFault::Damaged(key, column) => RecordFault::Damaged(key, column),
            FoldFault::Memory => RecordFault::Memory,
        }
    }
}
