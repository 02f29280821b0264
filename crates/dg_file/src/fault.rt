//! Why a call of an index failed.

ghost use Rattle.std.specs.Prelude.{◌≡◌};
ghost use Rattle.dg_file.specs.declared.fault.CommitFault.TheVariants as commit_fault;
ghost use Rattle.dg_file.specs.declared.fault.CreateFault.TheVariants as create_fault;
ghost use Rattle.dg_file.specs.declared.fault.FetchFault.TheVariants as fetch_fault;
ghost use Rattle.dg_file.specs.declared.fault.ReopenFault.TheVariants as reopen_fault;
ghost use Rattle.dg_file.specs.Faults.{reopen_fault_of};

use dg_disk::Failed;
use std::alloc::AllocError;
use thiserror::Error;

/// Why an index was not made.
#[derive(Clone, Copy, Debug, PartialEq, Eq, Error)]
pub enum CreateFault {
    /// The disk failed.
    #[error("a call of the disk failed")]
    Disk,
    /// Memory ran out.
    #[error("out of memory")]
    Memory,
}

/// Why an index was not reopened.
#[derive(Clone, Copy, Debug, PartialEq, Eq, Error)]
pub enum ReopenFault {
    /// There is no index.
    #[error("there is no index")]
    Blank,
    /// The file is not one of an index.
    #[error("the file is not one of an index")]
    Foreign,
    /// The segment at this offset breaks a rule.
    #[error("the segment at byte {0} breaks the format")]
    Damaged(u64),
    /// The disk failed.
    #[error("a call of the disk failed")]
    Disk,
    /// Memory ran out.
    #[error("out of memory")]
    Memory,
}

/// Why a column was not read.
#[derive(Clone, Copy, Debug, PartialEq, Eq, Error)]
pub enum FetchFault {
    /// The disk failed.
    #[error("a call of the disk failed")]
    Disk,
    /// Memory ran out.
    #[error("out of memory")]
    Memory,
}

/// Why a batch was not added.
#[derive(Clone, Copy, Debug, PartialEq, Eq, Error)]
pub enum CommitFault {
    /// The file would have so many bytes in use, more than it may have.
    #[error("the file would have {0} bytes in use, more than it may have")]
    FileFull(u64),
    /// The disk failed.
    #[error("a call of the disk failed")]
    Disk,
}

impl From<Failed> for CreateFault {
    ghost from_gives = { λ _ fault. fault ≡ create_fault.Disk };

    fn from(_failure: Failed) -> CreateFault {
        CreateFault::Disk
    }
}

impl From<AllocError> for CreateFault {
    ghost from_gives = { λ _ fault. fault ≡ create_fault.Memory };

    fn from(_failure: AllocError) -> CreateFault {
        CreateFault::Memory
    }
}

impl From<Failed> for ReopenFault {
    ghost from_gives = { λ _ fault. fault ≡ reopen_fault.Disk };

    fn from(_failure: Failed) -> ReopenFault {
        ReopenFault::Disk
    }
}

impl From<AllocError> for ReopenFault {
    ghost from_gives = { λ _ fault. fault ≡ reopen_fault.Memory };

    fn from(_failure: AllocError) -> ReopenFault {
        ReopenFault::Memory
    }
}

impl From<FetchFault> for ReopenFault {
    ghost from_gives = { λ read fault. fault ≡ reopen_fault_of read };

    fn from(read: FetchFault) -> ReopenFault {
        match read {
            FetchFault::Disk => ReopenFault::Disk,
            FetchFault::Memory => ReopenFault::Memory,
        }
    }
}

impl From<Failed> for FetchFault {
    ghost from_gives = { λ _ fault. fault ≡ fetch_fault.Disk };

    fn from(_failure: Failed) -> FetchFault {
        FetchFault::Disk
    }
}

impl From<AllocError> for FetchFault {
    ghost from_gives = { λ _ fault. fault ≡ fetch_fault.Memory };

    fn from(_failure: AllocError) -> FetchFault {
        FetchFault::Memory
    }
}

impl From<Failed> for CommitFault {
    ghost from_gives = { λ _ fault. fault ≡ commit_fault.Disk };

    fn from(_failure: Failed) -> CommitFault {
        CommitFault::Disk
    }
}
