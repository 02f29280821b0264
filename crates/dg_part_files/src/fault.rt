//! Why a part was not written.

ghost use Rattle.std.specs.Prelude.{◌≡◌};
ghost use Rattle.dg_part_files.specs.declared.fault.PartFault.TheVariants.{Memory};
ghost use Rattle.dg_part_files.specs.Faults.{of_creation};

use dg_file::CreateFault;
use dg_graph::Column;
use dg_history::Key;
use std::alloc::AllocError;
use thiserror::Error;

/// Why a part was not written.
#[derive(Clone, Copy, Debug, PartialEq, Eq, Error)]
pub enum PartFault {
    /// The text of this number may not be a name: it has a line end. No history has it. Nothing was written.
    #[error("the name {0} has a line end")]
    Name(u32),
    /// The event of this number, from 1, has as many events of its own time before it as a batch may have.
    #[error("the event {0} is one too many of its time")]
    Crowded(u64),
    /// The file would have so many bytes in use with its next segment, more than it may have.
    #[error("the file would have {0} bytes in use, more than it may have")]
    Full(u64),
    /// The first column that is in no spelling among those that were read back; or a delta that is due and has more
    /// elements than can be counted.
    #[error("the column {1:?} of the record {0:?} is damaged")]
    Damaged(Key, Column),
    /// The disk failed.
    #[error("a call of the disk failed")]
    Disk,
    /// Want of memory.
    #[error("out of memory")]
    Memory,
}

impl From<AllocError> for PartFault {
    ghost from_gives = { λ _ fault. fault ≡ Memory };

    fn from(_: AllocError) -> PartFault {
        PartFault::Memory
    }
}

impl From<CreateFault> for PartFault {
    ghost from_gives = { λ from fault. fault ≡ of_creation from };

    fn from(fault: CreateFault) -> PartFault {
        match fault {
            CreateFault::Disk => PartFault::Disk,
            CreateFault::Memory => PartFault::Memory,
        }
    }
}
