//! Why a command is not answered.
use thiserror::Error;

/// Why a command is not answered, and the script goes on no further.
#[derive(Clone, Copy, Debug, PartialEq, Eq, Error)]
pub enum Stop {
    /// A read of the script failed.
    #[error("a read of the script failed")]
    Read,
    /// Another byte of the script is needed, and as many as the limit were taken.
    #[error("the script has as many bytes as the limit")]
    Limit,
    /// What the machine writes to failed.
    #[error("what the script writes to failed")]
    World,
}
