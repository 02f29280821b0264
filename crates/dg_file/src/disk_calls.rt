//! Calls of a disk, put together.

ghost use Rattle.std.specs.Prelude.{◌≡◌, length, OnOk, OnErr};
ghost use Rattle.dg_disk.specs.Calls.{FailsToWrite, IsOnDevice, LeftByCrash, WritesDisk};
ghost use Rattle.dg_disk.specs.Image.{HasOffset, PartWritten, WritesPart, with_piece};

use dg_disk::{Disk, Failed};

/// Puts the piece at the offset and brings it to the device. `Failed` where the disk failed: then some
/// of the piece may be there.
pub(crate) fn put_down<D: Disk>(disk: &mut D, offset: u64, piece: &[u8]) -> Result<(), Failed>
    requires { HasOffset (D.image disk.old) offset }
    ensures written { OnOk result (D.image disk.new ≡ with_piece offset piece.now (D.image disk.old)) }
    ensures part { OnErr result (WritesPart offset (length piece.now) (D.image disk.old) (D.image disk.new)) }
    ensures cause { OnErr result (FailsToWrite D.Disk disk.old disk.new) }
    ensures frame { WritesDisk D.Disk disk.old disk.new }

    // crashes
    ensures settled { OnOk result (IsOnDevice D.Disk disk.new) }
    ensures crash { LeftByCrash D.Disk disk.old disk.new (PartWritten offset (length piece.now)) }
{
    disk.write_at(offset, piece)?;
    disk.sync()
}
