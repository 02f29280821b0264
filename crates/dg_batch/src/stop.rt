//! Why a step ends before its command is answered.
ghost use Rattle.std.specs.Prelude.{◌≡◌};
ghost use Rattle.dg_batch.specs.BatchLines.{stop_of};

use dg_io::LineFault;
use thiserror::Error;

/// Why a step ends before its command is answered.
#[derive(Clone, Copy, Debug, PartialEq, Eq, Error)]
pub enum Stop {
    /// A read of the source failed. The session is as it was.
    #[error("a read of the script failed")]
    Read,
    /// Another byte is needed, and as many as the limit allows were taken. The session is as it was.
    #[error("the script has as many bytes as the limit")]
    Limit,
    /// A write to the disk failed. The index file is as it was, or as after the command.
    #[error("a write or a sync of the index file failed")]
    Store,
}

impl From<LineFault> for Stop {
    ghost from_gives = { λ fault stop. stop ≡ stop_of fault };

    fn from(fault: LineFault) -> Stop {
        match fault {
            LineFault::Read => Stop::Read,
            LineFault::Limit => Stop::Limit,
        }
    }
}
