//! Why no session begins over an index file.

ghost use Rattle.std.specs.Prelude.{◌≡◌};
ghost use Rattle.dg_session.specs.SessionStart.{fault_of_verify};
ghost use Rattle.dg_session.specs.declared.session_fault.SessionFault.TheVariants as session_fault;
ghost use Rattle.dg_start.specs.declared.fault.StartFault.TheVariants as start_fault;

use dg_graph::Column;
use dg_history::Key;
use dg_start::{RecordColumn, StartFault};
use dg_verify::VerifyFault;
use std::alloc::AllocError;
use thiserror::Error;

/// Why no session begins over an index file.
#[derive(Clone, Copy, Debug, PartialEq, Eq, Error)]
pub enum SessionFault {
    /// The file is not started from.
    #[error(transparent)]
    Start(StartFault),
    /// With `checked`: the first record, in the order of keys, and its first column, that is not what the
    /// file's own events determine.
    #[error("unsound at {record}: it is not what the events of the file determine; dump its events, and load them into a new file", record = RecordColumn(*.0, *.1))]
    Unsound(Key, Column),
}

impl From<StartFault> for SessionFault {
    ghost from_gives = { λ fault to. to ≡ session_fault.Start fault };

    fn from(fault: StartFault) -> SessionFault {
        SessionFault::Start(fault)
    }
}

impl From<AllocError> for SessionFault {
    ghost from_gives = { λ _ to. to ≡ session_fault.Start start_fault.Memory };

    fn from(_error: AllocError) -> SessionFault {
        SessionFault::Start(StartFault::Memory)
    }
}

impl From<VerifyFault> for SessionFault {
    ghost from_gives = { λ fault to. to ≡ fault_of_verify fault };

    fn from(fault: VerifyFault) -> SessionFault {
        match fault {
            VerifyFault::Disk => SessionFault::Start(StartFault::Disk),
            VerifyFault::Memory => SessionFault::Start(StartFault::Memory),
        }
    }
}
