//! How a split ends, its exit status, and the line that says so.
ghost use Rattle.std.specs.Prelude.{◌≡◌};
ghost use Rattle.dg_splitting.specs.Endings.{code_of, of_part, of_record, of_start};
ghost use Rattle.dg_splitting.specs.declared.status.SplitStatus.TheVariants as status;

use dg_part_files::PartFault;
use dg_records::RecordFault;
use dg_session::SessionFault;
use dg_start::StartFault;
use std::alloc::AllocError;

/// How a split ended.
#[derive(Clone, Copy, Debug, PartialEq, Eq)]
pub enum SplitStatus {
    /// Every part was written.
    Done,
    /// The disk of the index or of an out failed.
    DiskFault,
    /// Memory ran out.
    NoMemory,
    /// The index file is not one that is split, for this reason: never a failure of the disk or want of memory.
    Refused(SessionFault),
    /// The out of this number has an index already, or bytes that are none. Nothing was written.
    Exists(u32),
    /// The file has no index.
    NoIndex,
    /// The out of this number would have so many bytes in use with its next batch, more than it may have.
    Full(u32, u64),
}

impl From<AllocError> for SplitStatus {
    ghost from_gives = { λ _ to. to ≡ status.NoMemory };

    fn from(_error: AllocError) -> SplitStatus {
        SplitStatus::NoMemory
    }
}

impl From<SessionFault> for SplitStatus {
    ghost from_gives = { λ fault to. to ≡ of_start fault };

    fn from(fault: SessionFault) -> SplitStatus {
        match fault {
            SessionFault::Start(StartFault::Disk) => SplitStatus::DiskFault,
            SessionFault::Start(StartFault::Memory) => SplitStatus::NoMemory,
            _ => SplitStatus::Refused(fault),
        }
    }
}

impl From<RecordFault> for SplitStatus {
    ghost from_gives = { λ fault to. to ≡ of_record fault };

    fn from(fault: RecordFault) -> SplitStatus {
        match fault {
            RecordFault::Disk => SplitStatus::DiskFault,
            RecordFault::Damaged(key, col) => {
                SplitStatus::Refused(SessionFault::Start(StartFault::BadRecord(key, col)))
            }
            RecordFault::Memory => SplitStatus::NoMemory,
        }
    }
}

/// How a split ends whose part of this number is not written.
pub(crate) fn part_status(part: u32, fault: PartFault) -> SplitStatus
    ensures { result ≡ of_part part fault }
{
    match fault {
        PartFault::Name(_) => SplitStatus::Refused(SessionFault::Start(StartFault::Foreign)),
        PartFault::Crowded(event) => {
            SplitStatus::Refused(SessionFault::Start(StartFault::BadRecent(event)))
        }
        PartFault::Full(needed) => SplitStatus::Full(part, needed),
        PartFault::Damaged(key, col) => {
            SplitStatus::Refused(SessionFault::Start(StartFault::BadRecord(key, col)))
        }
        PartFault::Disk => SplitStatus::DiskFault,
        PartFault::Memory => SplitStatus::NoMemory,
    }
}

impl SplitStatus {
    /// The exit status of the program.
    pub fn code(&self) -> u8
        ensures { result ≡ code_of self.now }
    {
        match self {
            SplitStatus::Done => 0,
            SplitStatus::DiskFault => 5,
            SplitStatus::NoMemory => 6,
            SplitStatus::Refused(_) => 7,
            SplitStatus::Exists(_) => 8,
            SplitStatus::NoIndex => 10,
            SplitStatus::Full(_, _) => 12,
        }
    }

    /// What the program says of it on standard error, after its name.
    pub fn message(&self) -> Option<&'static str> {
        match self {
            SplitStatus::Done => None,
            SplitStatus::DiskFault => Some("the index file failed"),
            SplitStatus::NoMemory => Some("out of memory"),
            SplitStatus::Refused(_) => Some("the index is refused"),
            SplitStatus::Exists(_) => Some("an output exists"),
            SplitStatus::NoIndex => Some("no index"),
            SplitStatus::Full(_, _) => Some("an output is full"),
        }
    }
}
