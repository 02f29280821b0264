//! By what it is known whether a file is as it was.

use crate::reason::Reason;
use std::fs::Metadata;
use std::os::unix::fs::MetadataExt;

/// Which file it is, how long it is, and when its content last changed.
#[derive(Clone, Copy)]
pub struct Stamp {
    device: u64,
    inode: u64,
    // in bytes
    length: u64,
    // since the beginning of 1970, in seconds and the nanoseconds behind them
    seconds: i64,
    nanoseconds: i64,
}

impl Stamp {
    /// The stamp of the file of which the system says this.
    pub fn of(metadata: &Metadata) -> Stamp {
        Stamp {
            device: metadata.dev(),
            inode: metadata.ino(),
            length: metadata.len(),
            seconds: metadata.mtime(),
            nanoseconds: metadata.mtime_nsec(),
        }
    }

    /// What has happened to a file of this stamp, if of the file that now has its name the system says this.
    pub fn change(&self, metadata: &Metadata) -> Option<Reason> {
        let now = Stamp::of(metadata);
        if now.device != self.device || now.inode != self.inode {
            Some(Reason::Replaced)
        } else if now.length < self.length {
            Some(Reason::Cut)
        } else if now.length != self.length
            || now.seconds != self.seconds
            || now.nanoseconds != self.nanoseconds
        {
            Some(Reason::Changed)
        } else {
            None
        }
    }
}
