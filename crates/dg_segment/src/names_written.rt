//! The new names of a batch, as they are to be written.
ghost use Rattle.std.specs.Prelude.{◌≡◌, ◌≤◌, ◌∷◌, ◌++◌, [], length, OnOk, OnErr};
ghost use Rattle.std.specs.List.{flat_map};
ghost use Rattle.dg_text.specs.declared.limits.TheConstants.{NAME_BYTES_MAX};
ghost use Rattle.dg_index.specs.FileOfHistory.{name_bytes};

use std::alloc::{AllocError, Global};
use std::marker::Model;

/// The bytes in front of a name, which are its length.
pub const NAME_LENGTH_BYTES: usize = 2;

/// The new names of a batch, as their bytes in its directory.
#[derive(Drop)]
pub struct NewNames {
    count: u32,
    bytes: Vec<u8>,
}

impl Model for NewNames {
    ghost use Rattle.std.specs.Prelude.{List, ℕ};
    ghost use Rattle.dg_segment.specs.NewNames.{AreNewNames, texts_in};

    ghost Value = { List (List ℕ) };

    ghost view = { λ n. texts_in n.count n.bytes.items };

    ghost invariant = { λ n. AreNewNames n.count n.bytes.items };
}

impl NewNames {
    /// No name. Takes no memory.
    pub fn new(alloc: Global) -> NewNames
        ensures { result ≡ [] }
    {
        NewNames {
            count: 0,
            bytes: Vec::new(alloc),
        }
    }

    /// Adds a name behind the others. `AllocError` for want of memory, and where there are 2^32 - 1 names:
    /// then nothing changes.
    pub fn push(&mut self, text: &[u8]) -> Result<(), AllocError>
        requires { length text.now ≤ NAME_BYTES_MAX }
        ensures ok { OnOk result (self.new ≡ self.old ++ text.now ∷ []) }
        ensures err { OnErr result (self.new ≡ self.old) }
    {
        if self.count == u32::MAX {
            return Err(AllocError);
        }
        put_name(&mut self.bytes, text)?;
        self.count += 1;
        Ok(())
    }

    /// How many names there are.
    pub fn count(&self) -> u32
        ensures { result ≡ length self.now }
    {
        self.count
    }

    /// The names as they stand in the directory, each behind its length.
    pub fn bytes(&self) -> &[u8]
        ensures { result.now ≡ flat_map name_bytes self.now }
    {
        self.bytes.as_slice()
    }
}

// Appends the text behind its length. `AllocError` for want of memory: then nothing changes.
fn put_name(into: &mut Vec<u8>, text: &[u8]) -> Result<(), AllocError>
    requires { length text.now ≤ NAME_BYTES_MAX }
    ensures ok { OnOk result (into.new.items ≡ into.old.items ++ name_bytes text.now) }
    ensures err { OnErr result (into.new.items ≡ into.old.items) }
{
    into.reserve(NAME_LENGTH_BYTES + text.len())?;
    let len = text.len() as u16;
    into.extend_from_slice(&len.to_be_bytes()).unwrap();
    into.extend_from_slice(text).unwrap();
    Ok(())
}
