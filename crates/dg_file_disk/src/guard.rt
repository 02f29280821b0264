//! When a file is written that other programs may write too: it is locked before the first write, and looked at before the
//! first and before the first behind each sync.
ghost use Rattle.std.specs.Prelude.{◌≡◌, Bool, false, true, OnErr, OnOk};

use crate::reason::Reason;

/// A file that other programs may write too. That it is held, and that it was looked at, is known by these calls alone.
pub trait SharedFile {
    // Whether this run has asked for its lock, and no other run has it.
    ghost is_held: { Self → Bool };

    // Whether this run has looked at it since the last sync, and found it as it has seen or left it.
    ghost is_seen: { Self → Bool };

    /// Locks the file against other runs that write, to the end of this one. It fails where another run has done so, and
    /// where the file is open for reading alone.
    fn hold(&mut self) -> Result<(), Reason>
        ensures held { OnOk result (is_held self.new ≡ true) }
        ensures same_seen { is_seen self.new ≡ is_seen self.old };

    /// Looks whether the file of this path is still the one that is open, and as this run has seen or left it. It fails
    /// where it is not.
    fn look(&mut self) -> Result<(), Reason>
        ensures seen { OnOk result (is_seen self.new ≡ true) }
        ensures same_held { is_held self.new ≡ is_held self.old };

    /// Writes the whole piece. A write that takes nothing of what is left is an error.
    fn write(&mut self, offset: u64, piece: &[u8]) -> Result<(), Reason>
        requires held { is_held self.old ≡ true }
        requires seen { is_seen self.old ≡ true }
        ensures same_held { is_held self.new ≡ is_held self.old }
        ensures same_seen { is_seen self.new ≡ is_seen self.old };

    /// Brings what was written to the device. Others may write the file then, as far as this run knows.
    fn sync(&mut self) -> Result<(), Reason>
        ensures same_held { is_held self.new ≡ is_held self.old }
        ensures same_seen { OnErr result (is_seen self.new ≡ is_seen self.old) };
}

/// What a run knows of a file that other programs may write too.
#[derive(Drop)]
pub struct Guard {
    // whether it is held
    is_held: bool,
    // whether it was looked at since the last sync
    is_seen: bool,
}

impl Guard {
    /// Nothing is known of the file.
    pub fn new() -> Guard
        ensures { result ≡ record { is_held = false; is_seen = false } }
    {
        Guard {
            is_held: false,
            is_seen: false,
        }
    }

    /// Writes the whole piece to the file. It fails where the file cannot be held by this run, and where it is not as this
    /// run has seen or left it.
    pub fn write<F: SharedFile>(
        &mut self,
        file: &mut F,
        offset: u64,
        piece: &[u8],
    ) -> Result<(), Reason>
        requires held { self.old.is_held ≡ true → F.is_held file.old ≡ true }
        requires seen { self.old.is_seen ≡ true → F.is_seen file.old ≡ true }
        ensures held { self.new.is_held ≡ true → F.is_held file.new ≡ true }
        ensures seen { self.new.is_seen ≡ true → F.is_seen file.new ≡ true }
    {
        if !self.is_held {
            file.hold()?;
            self.is_held = true;
        }
        if !self.is_seen {
            file.look()?;
            self.is_seen = true;
        }
        file.write(offset, piece)
    }

    /// Brings what was written to the device. Behind it the file is looked at anew before it is written.
    pub fn sync<F: SharedFile>(&mut self, file: &mut F) -> Result<(), Reason>
        requires held { self.old.is_held ≡ true → F.is_held file.old ≡ true }
        requires seen { self.old.is_seen ≡ true → F.is_seen file.old ≡ true }
        ensures held { self.new.is_held ≡ true → F.is_held file.new ≡ true }
        ensures seen { self.new.is_seen ≡ true → F.is_seen file.new ≡ true }
    {
        file.sync()?;
        self.is_seen = false;
        Ok(())
    }
}
