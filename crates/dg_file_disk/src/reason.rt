//! Why a call of the disk failed, in words for who runs the program.

use std::fmt::{Display, Formatter};
use std::{fmt, io};

/// Why a call failed.
#[derive(Clone, Copy)]
pub enum Reason {
    /// The system refused a call on the file.
    System(io::Error),
    /// The system refused to bring the entry of the file in its folder to the device.
    Folder(io::Error),
    /// The file was opened for reading alone, since the system refused to open it for writing too.
    ReadOnly(io::Error),
    /// Another run holds the lock for writing.
    InUse,
    /// The file has become shorter.
    Cut,
    /// The file has another length or another time of change.
    Changed,
    /// Another file has its name.
    Replaced,
    /// No file has its name.
    Removed,
}

impl From<io::Error> for Reason {
    fn from(error: io::Error) -> Reason {
        match error.kind() {
            // A read goes only where the file has had bytes.
            io::ErrorKind::UnexpectedEof => Reason::Cut,
            _ => Reason::System(error),
        }
    }
}

/// Why the last call that failed did so: a line with the file's name and the reason.
#[derive(Clone, Copy)]
pub struct Failure<'a> {
    path: &'a str,
    reason: Reason,
}

impl<'a> Failure<'a> {
    /// The failure of a call on the file of this path.
    pub fn new(path: &'a str, reason: Reason) -> Failure<'a> {
        Failure { path, reason }
    }
}

impl<'a> Display for Failure<'a> {
    fn fmt<W: fmt::Write>(&self, f: &mut Formatter<W>) -> fmt::Result {
        let path = self.path;
        match self.reason {
            Reason::System(error) => write!(f, "{path}: {error}"),
            Reason::Folder(error) => write!(f, "the folder of {path}: {error}"),
            Reason::ReadOnly(error) => write!(f, "{path} may not be written: {error}"),
            Reason::InUse => write!(f, "{path} is in use by another program"),
            Reason::Cut => write!(f, "{path} has been cut since it was opened"),
            Reason::Changed => write!(
                f,
                "{path} has been changed by another program since it was opened"
            ),
            Reason::Replaced => write!(
                f,
                "{path} has been replaced by another file since it was opened"
            ),
            Reason::Removed => write!(f, "{path} has been removed since it was opened"),
        }
    }
}
