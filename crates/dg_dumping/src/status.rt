//! How a dump ends, its exit status, and the line that says so.
ghost use Rattle.std.specs.Prelude.{◌≡◌};
ghost use Rattle.dg_dumping.specs.Endings.{code_of, of_open, of_record, of_verify};
ghost use Rattle.dg_dumping.specs.declared.status.DumpStatus.TheVariants as status;

use dg_file::ReopenFault;
use dg_graph::Column;
use dg_history::Key;
use dg_io::Failed;
use dg_records::RecordFault;
use dg_start::RecordColumn;
use dg_verify::VerifyFault;
use std::alloc::AllocError;
use thiserror::Error;

/// Why an index file is not dumped.
#[derive(Clone, Copy, Debug, PartialEq, Eq, Error)]
pub enum DumpFault {
    /// The file is no index.
    #[error("foreign: it is no index of this program; name an index")]
    Foreign,
    /// A segment breaks the format; the offset of its first byte.
    #[error("damaged at offset {0}: the segment there breaks the format; restore the file from a copy")]
    Damaged(u64),
    /// A record of events has a column that is in no spelling, or its columns do not come together.
    #[error("damaged in {record}; restore the file from a copy", record = RecordColumn(*.0, *.1))]
    BadRecord(Key, Column),
    /// With `checked`: the first record, in the order of keys, and its first column, that is not what the
    /// file's own events determine.
    #[error("unsound at {record}: it is not what the events of the file determine; its events are written without --checked", record = RecordColumn(*.0, *.1))]
    Unsound(Key, Column),
}

/// How a dump ended.
#[derive(Clone, Copy, Debug, PartialEq, Eq)]
pub enum DumpStatus {
    /// The whole script was written.
    Done,
    /// A write of the script failed.
    SinkFault,
    /// The disk failed.
    DiskFault,
    /// Memory ran out.
    NoMemory,
    /// The index file is not one that is dumped, for this reason.
    Refused(DumpFault),
    /// The file has no index.
    NoIndex,
}

impl From<AllocError> for DumpStatus {
    ghost from_gives = { λ _ to. to ≡ status.NoMemory };

    fn from(_error: AllocError) -> DumpStatus {
        DumpStatus::NoMemory
    }
}

impl From<Failed> for DumpStatus {
    ghost from_gives = { λ _ to. to ≡ status.SinkFault };

    fn from(_error: Failed) -> DumpStatus {
        DumpStatus::SinkFault
    }
}

impl From<ReopenFault> for DumpStatus {
    ghost from_gives = { λ fault to. to ≡ of_open fault };

    fn from(fault: ReopenFault) -> DumpStatus {
        match fault {
            ReopenFault::Blank => DumpStatus::NoIndex,
            ReopenFault::Foreign => DumpStatus::Refused(DumpFault::Foreign),
            ReopenFault::Damaged(offset) => DumpStatus::Refused(DumpFault::Damaged(offset)),
            ReopenFault::Disk => DumpStatus::DiskFault,
            ReopenFault::Memory => DumpStatus::NoMemory,
        }
    }
}

impl From<RecordFault> for DumpStatus {
    ghost from_gives = { λ fault to. to ≡ of_record fault };

    fn from(fault: RecordFault) -> DumpStatus {
        match fault {
            RecordFault::Disk => DumpStatus::DiskFault,
            RecordFault::Damaged(key, col) => DumpStatus::Refused(DumpFault::BadRecord(key, col)),
            RecordFault::Memory => DumpStatus::NoMemory,
        }
    }
}

impl From<VerifyFault> for DumpStatus {
    ghost from_gives = { λ fault to. to ≡ of_verify fault };

    fn from(fault: VerifyFault) -> DumpStatus {
        match fault {
            VerifyFault::Disk => DumpStatus::DiskFault,
            VerifyFault::Memory => DumpStatus::NoMemory,
        }
    }
}

impl DumpStatus {
    /// The exit status of the program.
    pub fn code(&self) -> u8
        ensures { result ≡ code_of self.now }
    {
        match self {
            DumpStatus::Done => 0,
            DumpStatus::SinkFault => 4,
            DumpStatus::DiskFault => 5,
            DumpStatus::NoMemory => 6,
            DumpStatus::Refused(_) => 7,
            DumpStatus::NoIndex => 8,
        }
    }

    /// What the program says of it on standard error, after its name.
    pub fn message(&self) -> Option<&'static str> {
        match self {
            DumpStatus::Done => None,
            DumpStatus::SinkFault => Some("writing failed"),
            DumpStatus::DiskFault => Some("the index file failed"),
            DumpStatus::NoMemory => Some("out of memory"),
            DumpStatus::Refused(_) => Some("the index is refused"),
            DumpStatus::NoIndex => Some("there is no index"),
        }
    }
}
