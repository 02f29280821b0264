//! The disk over a file: its counts, and the reason of a failure.

ghost use Rattle.std.specs.Prelude.{◌≡◌, ◌≤◌, None, ⊤};
ghost use Rattle.dg_disk.specs.Counts.{raised_by};

use crate::guard::Guard;
use crate::reason::{Failure, Reason};
use crate::stored::Stored;
use dg_disk::{Disk, Failed};
use std::fs::{File, Files};
use std::marker::Model;

/// A disk over a file, which is opened, or made where there is none, at the first call. It tells
/// nothing of the file's content.
///
/// Before its first write it locks the file, as long as it is there itself, against others that write. The first write
/// and each behind a sync fail where the file is not as this disk has seen or left it. A file that may not be opened for
/// writing is read, and each write to it fails.
#[derive(Drop)]
pub struct FileDisk<R> {
    stored: Stored<R>,
    // whether the file is held and looked at, as a write needs it
    guard: Guard,
    // why the last call that failed did so
    reason: Option<Reason>,
    faults: u64,
    write_faults: u64,
    taken: u64,
}

impl<R> Model for FileDisk<R> {
    ghost use Rattle.dg_file_disk.specs.Counts.{Counts};

    ghost Value = { Counts };

    ghost view = { λ d. record { faults = d.faults; write_faults = d.write_faults; taken = d.taken } };
}

impl<R: Files<File = File>> FileDisk<R> {
    /// A disk over the file at `path`, with nothing read and no failure so far. The file is not
    /// touched yet.
    pub fn new(rt: R, path: String) -> FileDisk<R>
        ensures { result ≡ record { faults = 0; write_faults = 0; taken = 0 } }
    {
        FileDisk {
            stored: Stored::new(rt, path),
            guard: Guard::new(),
            reason: None,
            faults: 0,
            write_faults: 0,
            taken: 0,
        }
    }

    /// The path of the file.
    pub fn path(&self) -> &str {
        self.stored.path()
    }

    /// Why the last call that failed did so, if one has failed.
    pub fn failure(&self) -> Option<Failure<'_>> {
        match self.reason {
            Some(reason) => Some(Failure::new(self.stored.path(), reason)),
            None => None,
        }
    }

    // Counts a failure of a call that writes nothing.
    fn fail(&mut self, reason: Reason) -> Failed
        ensures raised { self.new ≡ record self.old { faults = raised_by 1 self.old.faults } }
        ensures counted { self.old.faults ≤ self.new.faults }
    {
        self.reason = Some(reason);
        self.faults = self.faults.saturating_add(1);
        Failed
    }

    // Counts a failure of a write or a sync.
    fn fail_write(&mut self, reason: Reason) -> Failed
        ensures raised { self.new ≡ record self.old { faults = raised_by 1 self.old.faults; write_faults = raised_by 1 self.old.write_faults } }
        ensures counted { self.old.faults ≤ self.new.faults }
        ensures write_counted { self.old.write_faults ≤ self.new.write_faults }
    {
        self.write_faults = self.write_faults.saturating_add(1);
        self.fail(reason)
    }
}

impl<R: Files<File = File>> Disk for FileDisk<R> {
    ghost image = { λ _. None };

    ghost faults = { λ d. d.faults };

    ghost write_faults = { λ d. d.write_faults };

    ghost taken = { λ d. d.taken };

    // Each byte is read of the file.
    ghost cached = { λ _. 0 };

    // Nothing is known of what a crash leaves of a file.
    ghost may_leave = { λ _ _. ⊤ };

    ghost moment = { λ _. 0 };

    ghost left_since = { λ _ _ _. ⊤ };

    fn len(&mut self) -> Result<u64, Failed> {
        match self.stored.len() {
            Ok(len) => Ok(len),
            Err(reason) => Err(self.fail(reason)),
        }
    }

    fn read_at(&mut self, offset: u64, into: &mut [u8]) -> Result<(), Failed> {
        match self.stored.read(offset, into) {
            Ok(()) => {
                self.taken = self.taken.saturating_add(into.len() as u64);
                Ok(())
            }
            Err(reason) => Err(self.fail(reason)),
        }
    }

    fn write_at(&mut self, offset: u64, piece: &[u8]) -> Result<(), Failed> {
        match self.guard.write(&mut self.stored, offset, piece) {
            Ok(()) => Ok(()),
            Err(reason) => Err(self.fail_write(reason)),
        }
    }

    fn sync(&mut self) -> Result<(), Failed> {
        match self.guard.sync(&mut self.stored) {
            Ok(()) => Ok(()),
            Err(reason) => Err(self.fail_write(reason)),
        }
    }

    ghost leaves_image = { λ _. tt };

    ghost counts_now = { λ _ _ _ _ left. left };

    ghost only_now = { λ _ _ left. left };
}
