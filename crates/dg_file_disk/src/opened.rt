//! A file that is open: its bytes, its lock, and what this run knows of it.

use crate::reason::Reason;
use crate::stamp::Stamp;
use std::fs::{File, TryLockError};
use std::io;
use std::io::ErrorKind;
use std::os::unix::fs::FileExt;

// The number of the error by which some file systems say that they know no locks, where others say that the call is
// unsupported.
const NO_LOCKS_AVAILABLE: i32 = 37;

/// A file that is open, and what this run knows of it.
#[derive(Drop)]
pub struct Opened {
    file: File,
    // why it is open for reading alone, where it is
    read_only: Option<io::Error>,
    // the file as this run has seen or left it
    stamp: Stamp,
    // whether something was written since the last sync
    is_written: bool,
    // whether all that is kept about the file was brought to the device
    is_synced: bool,
    // whether a crash may lose the file's entry in its folder
    is_new: bool,
}

impl Opened {
    /// A file that was just opened, for reading alone where there is a reason. One with bytes was found in its folder by
    /// the run that wrote them, since nothing is written before the sync that makes sure of it.
    pub fn new(file: File, read_only: Option<io::Error>) -> io::Result<Opened> {
        let metadata = file.metadata()?;
        let stamp = Stamp::of(&metadata);
        Ok(Opened {
            file,
            read_only,
            stamp,
            is_written: false,
            is_synced: false,
            is_new: metadata.len() == 0,
        })
    }

    /// The length of the file in bytes.
    pub fn len(&self) -> io::Result<u64> {
        Ok(self.file.metadata()?.len())
    }

    /// Fills the slice. A file that ends before is an error.
    pub fn read(&self, offset: u64, into: &mut [u8]) -> io::Result<()> {
        self.file.read_exact_at(into, offset)
    }

    /// Writes the whole piece. A write that takes nothing of what is left is an error.
    pub fn write(&mut self, offset: u64, piece: &[u8]) -> io::Result<()> {
        self.is_written = true;
        self.file.write_all_at(piece, offset)
    }

    /// Brings the file's bytes and length to the device. The first time it brings also all else that is kept about it.
    pub fn sync(&mut self) -> io::Result<()> {
        let synced = if self.is_synced {
            self.file.sync_data()
        } else {
            self.file.sync_all()
        };
        match synced {
            // It is on the device as it is.
            Err(error) if self.read_only.is_some() && has_no_sync(&error) => return Ok(()),
            synced => synced?,
        }
        self.is_synced = true;
        if self.is_written {
            self.stamp = Stamp::of(&self.file.metadata()?);
            self.is_written = false;
        }
        Ok(())
    }

    /// Locks the file against other runs that write, to the end of this one. It fails where another run has done so, and
    /// where the file is open for reading alone.
    pub fn hold(&self) -> Result<(), Reason> {
        if let Some(error) = self.read_only {
            return Err(Reason::ReadOnly(error));
        }
        match self.file.try_lock() {
            Err(TryLockError::WouldBlock) => Err(Reason::InUse),
            Err(TryLockError::Error(error)) if !lacks_locks(&error) => Err(error.into()),
            _ => Ok(()),
        }
    }

    /// The file as this run has seen or left it.
    pub fn stamp(&self) -> &Stamp {
        &self.stamp
    }

    /// Whether this run may write the file.
    pub fn is_writable(&self) -> bool {
        self.read_only.is_none()
    }

    /// Whether a crash may lose the file's entry in its folder.
    pub fn is_new(&self) -> bool {
        self.is_new
    }

    /// Notes that the file is found after a crash.
    pub fn note_found(&mut self) {
        self.is_new = false;
    }
}

/// Whether the error says that the file system has no such sync, as one that is only read.
pub fn has_no_sync(error: &io::Error) -> bool {
    match error.kind() {
        ErrorKind::InvalidInput | ErrorKind::ReadOnlyFilesystem | ErrorKind::Unsupported => true,
        _ => false,
    }
}

// Whether the error says that the file system knows no locks.
fn lacks_locks(error: &io::Error) -> bool {
    error.kind() == ErrorKind::Unsupported || error.raw_os_error() == Some(NO_LOCKS_AVAILABLE)
}
