//! A file by its path: how it is opened, looked at before it is written, and found after a crash.
ghost use Rattle.std.specs.Prelude.{true};

use crate::guard::SharedFile;
use crate::opened::{Opened, has_no_sync};
use crate::reason::Reason;
use std::fs::{File, Files, OpenOptions};
use std::io::ErrorKind;
use std::{fs, io};

/// A file by its path, which stays open once it is opened.
#[derive(Drop)]
pub struct Stored<R> {
    rt: R,
    path: String,
    opened: Option<Opened>,
}

impl<R: Files<File = File>> Stored<R> {
    /// The file at `path`, which is not touched yet.
    pub fn new(rt: R, path: String) -> Stored<R> {
        Stored {
            rt,
            path,
            opened: None,
        }
    }

    /// The path.
    pub fn path(&self) -> &str {
        &self.path
    }

    /// The length of the file in bytes.
    pub fn len(&mut self) -> Result<u64, Reason> {
        Ok(self.opened()?.len()?)
    }

    /// Fills the slice. A file that ends before is an error.
    pub fn read(&mut self, offset: u64, into: &mut [u8]) -> Result<(), Reason> {
        Ok(self.opened()?.read(offset, into)?)
    }

    // The file, opened where it is not open yet.
    fn opened(&mut self) -> io::Result<&mut Opened> {
        if self.opened.is_none() {
            self.opened = Some(open(&self.rt, &self.path)?);
        }
        match &mut self.opened {
            Some(opened) => Ok(opened),
            None => Err(ErrorKind::NotFound.into()),
        }
    }

    // Brings the file's entry in its folder to the device.
    fn sync_folder(&mut self) -> Result<(), Reason> {
        let synced = match File::open(&self.rt, folder_of(&self.path)) {
            Ok(folder) => folder.sync_all(),
            Err(error) => Err(error),
        };
        match synced {
            // Some file systems have no sync of a folder.
            Err(error) if has_no_sync(&error) => Ok(()),
            // A file that this run may not write was not made by it.
            Err(error) if self.opened()?.is_writable() => Err(Reason::Folder(error)),
            _ => Ok(()),
        }
    }
}

impl<R: Files<File = File>> SharedFile for Stored<R> {
    // No clause of the standard library says what a lock keeps, so both say nothing here.
    ghost is_held = { λ _. true };

    ghost is_seen = { λ _. true };

    fn hold(&mut self) -> Result<(), Reason> {
        self.opened()?.hold()
    }

    fn look(&mut self) -> Result<(), Reason> {
        let metadata = match fs::metadata(&self.rt, &self.path) {
            Ok(metadata) => metadata,
            Err(error) if error.kind() == ErrorKind::NotFound => return Err(Reason::Removed),
            Err(error) => return Err(error.into()),
        };
        match self.opened()?.stamp().change(&metadata) {
            Some(reason) => Err(reason),
            None => Ok(()),
        }
    }

    fn write(&mut self, offset: u64, piece: &[u8]) -> Result<(), Reason> {
        Ok(self.opened()?.write(offset, piece)?)
    }

    // Of a file that is empty it brings the entry in its folder too, the first time: this run may have made it, and a crash
    // may lose such a file whole.
    fn sync(&mut self) -> Result<(), Reason> {
        self.opened()?.sync()?;
        if self.opened()?.is_new() {
            self.sync_folder()?;
            self.opened()?.note_found();
        }
        Ok(())
    }
}

// Opens the file, or makes an empty one where there is none. What is in it stays. Where it may not be opened for writing
// it is opened for reading alone.
fn open<R: Files<File = File>>(rt: &R, path: &str) -> io::Result<Opened> {
    let both = OpenOptions::new()
        .read(true)
        .write(true)
        .create(true)
        .open(rt, path);
    match both {
        Ok(file) => Opened::new(file, None),
        // Where it cannot be read either, the first error says more: that a file may not be made, say.
        Err(error) if forbids_writing(&error) => match File::open(rt, path) {
            Ok(file) => Opened::new(file, Some(error)),
            Err(_) => Err(error),
        },
        Err(error) => Err(error),
    }
}

// Whether the error says that a file may not be written, so that it may be read all the same.
fn forbids_writing(error: &io::Error) -> bool {
    match error.kind() {
        ErrorKind::PermissionDenied | ErrorKind::ReadOnlyFilesystem => true,
        _ => false,
    }
}

// The folder that the path's file is in.
fn folder_of(path: &str) -> &str {
    match path.rfind('/') {
        None => ".",
        Some(0) => "/",
        Some(end) => &path[..end],
    }
}
