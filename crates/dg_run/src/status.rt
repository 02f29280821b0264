//! How a run ends, its exit status, and the line that says so.
ghost use Rattle.std.specs.Prelude.{◌≡◌};
ghost use Rattle.dg_run.specs.Statuses.{code_of, ending_of, status_of};

use dg_session::{SessionFault, StartFault};
use dg_turns::End;

/// How a run ended.
#[derive(Clone, Copy, Debug, PartialEq, Eq)]
pub enum Status {
    /// The script was read to its end, and every reply was written.
    Done,
    /// The words on the command line are not of the written form.
    Words,
    /// A read of the script failed.
    SourceFault,
    /// A write of a reply failed.
    SinkFault,
    /// The disk failed.
    DiskFault,
    /// There was no memory to begin with.
    NoMemory,
    /// The index file is not one that a run begins over, for this reason: never a failure of the disk or
    /// want of memory.
    Refused(SessionFault),
    /// As many bytes of the script as the limit were taken, and another is needed.
    ScriptLimit,
}

impl From<SessionFault> for Status {
    ghost from_gives = { λ fault status. status ≡ ending_of fault };

    /// How a run ends whose session does not begin.
    fn from(fault: SessionFault) -> Status {
        match fault {
            SessionFault::Start(StartFault::Disk) => Status::DiskFault,
            SessionFault::Start(StartFault::Memory) => Status::NoMemory,
            _ => Status::Refused(fault),
        }
    }
}

impl From<End> for Status {
    ghost from_gives = { λ end status. status ≡ status_of end };

    /// How a run ends whose script ends so.
    fn from(end: End) -> Status {
        match end {
            End::Done => Status::Done,
            End::SourceFault => Status::SourceFault,
            End::SinkFault => Status::SinkFault,
            End::ScriptLimit => Status::ScriptLimit,
            End::Broken => Status::DiskFault,
        }
    }
}

impl Status {
    /// The exit status of the program.
    pub fn code(&self) -> u8
        ensures { result ≡ code_of self.now }
    {
        match self {
            Status::Done => 0,
            Status::Words => 2,
            Status::SourceFault => 3,
            Status::SinkFault => 4,
            Status::DiskFault => 5,
            Status::NoMemory => 6,
            Status::Refused(_) => 7,
            Status::ScriptLimit => 9,
        }
    }

    /// What the program says of it on standard error, after its name.
    pub fn message(&self) -> Option<&'static str> {
        match self {
            Status::Done => None,
            Status::Words => Some("usage: deltagraph [--cache N] [--checked] INDEX"),
            Status::SourceFault => Some("reading the script failed"),
            Status::SinkFault => Some("writing failed"),
            Status::DiskFault => Some("the index file failed"),
            Status::NoMemory => Some("out of memory"),
            Status::Refused(_) => Some("the index is refused"),
            Status::ScriptLimit => Some("the script is too long"),
        }
    }
}
