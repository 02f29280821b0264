//! How a run over parts ends, its exit status, and the line that says so.
ghost use Rattle.std.specs.Prelude.{◌≡◌};
ghost use Rattle.dg_part_runs.specs.PartsStatuses.{ending_at, parts_code, status_of};

use dg_session::{SessionFault, StartFault};
use dg_turns::End;

/// How a run over parts ended.
#[derive(Clone, Copy, Debug, PartialEq, Eq)]
pub enum PartsStatus {
    /// The script was read to its end, and every reply was written.
    Done,
    /// A read of the script failed.
    SourceFault,
    /// A write of a reply failed.
    SinkFault,
    /// A disk failed before the script was read.
    DiskFault,
    /// There was no memory to begin with.
    NoMemory,
    /// The index file of this part, the first such, is not one that a run begins over, for this reason: never a failure of
    /// the disk or want of memory.
    Refused(u32, SessionFault),
    /// As many bytes of the script as the limit were taken, and another is needed.
    ScriptLimit,
    /// This part, the first such, has no index.
    NoIndex(u32),
    /// This part, the first such, has an event, and its names are not those of the first part that has one.
    Mismatch(u32),
}

impl From<End> for PartsStatus {
    ghost from_gives = { λ ending status. status ≡ status_of ending };

    /// How a run over parts ends that ends so. No disk of a part is written to, so none fails within a command.
    fn from(ending: End) -> PartsStatus {
        match ending {
            End::Done => PartsStatus::Done,
            End::SourceFault => PartsStatus::SourceFault,
            End::SinkFault => PartsStatus::SinkFault,
            End::ScriptLimit => PartsStatus::ScriptLimit,
            End::Broken => PartsStatus::DiskFault,
        }
    }
}

impl PartsStatus {
    /// How a run ends whose part of this number does not begin.
    pub(crate) fn at_part(part: u32, fault: SessionFault) -> PartsStatus
        ensures { result ≡ ending_at part fault }
    {
        match fault {
            SessionFault::Start(StartFault::Disk) => PartsStatus::DiskFault,
            SessionFault::Start(StartFault::Memory) => PartsStatus::NoMemory,
            _ => PartsStatus::Refused(part, fault),
        }
    }

    /// The exit status of the program.
    pub fn code(&self) -> u8
        ensures { result ≡ parts_code self.now }
    {
        match self {
            PartsStatus::Done => 0,
            PartsStatus::SourceFault => 3,
            PartsStatus::SinkFault => 4,
            PartsStatus::DiskFault => 5,
            PartsStatus::NoMemory => 6,
            PartsStatus::Refused(..) => 7,
            PartsStatus::ScriptLimit => 9,
            PartsStatus::NoIndex(_) => 10,
            PartsStatus::Mismatch(_) => 11,
        }
    }

    /// What the program says of it on standard error, after its name.
    pub fn message(&self) -> Option<&'static str> {
        match self {
            PartsStatus::Done => None,
            PartsStatus::SourceFault => Some("reading the script failed"),
            PartsStatus::SinkFault => Some("writing failed"),
            PartsStatus::DiskFault => Some("the index file failed"),
            PartsStatus::NoMemory => Some("out of memory"),
            PartsStatus::Refused(..) => Some("the index is refused"),
            PartsStatus::ScriptLimit => Some("the script is too long"),
            PartsStatus::NoIndex(_) => Some("no index"),
            PartsStatus::Mismatch(_) => Some("the parts differ"),
        }
    }
}
