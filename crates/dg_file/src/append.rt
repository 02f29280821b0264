//! Writing a segment behind the closed gate that ends the file, and opening that gate.

ghost use Rattle.std.specs.Prelude.{◌≡◌, ◌≤◌, ◌<◌, ◌+◌, ◌-◌, ◌^◌, ◌++◌, ◌∷◌, [], length, OnOk, OnErr, IfOk};
ghost use Rattle.dg_disk.specs.Calls.{FailsToWrite, IsOnDevice, LeftByCrash, WritesDisk};
ghost use Rattle.dg_disk.specs.Crash.{LeavesOnly, TornBehind};
ghost use Rattle.dg_disk.specs.Image.{HasOffset};
ghost use Rattle.dg_index.specs.FileOfHistory.{blobs, marker};
ghost use Rattle.dg_file.specs.Growth.{EndsBy, Moved, KeepsFront, Grown, Gated, GatedOrNot, JustGated};

use crate::disk_calls::put_down;
use crate::header::{CLOSED, OPEN};
use dg_disk::{Disk, Failed};
use dg_segment::Segment;

// Puts a piece, which may be empty, at the offset. Answers the offset behind it.
fn put<D: Disk>(disk: &mut D, offset: u64, piece: &[u8]) -> Result<u64, Failed>
    requires offset { HasOffset (D.image disk.old) offset }
    requires fits { offset + length piece.now < 2 ^ 64 }
    ensures behind { IfOk result (λ n. n ≡ offset + length piece.now) }
    ensures written { OnOk result (Moved (D.image disk.old) (D.image disk.new) (Grown offset piece.now)) }
    ensures ends { OnOk result (Moved (D.image disk.old) (D.image disk.new) (EndsBy offset (length piece.now))) }
    ensures part { Moved (D.image disk.old) (D.image disk.new) (KeepsFront offset) }
    ensures cause { OnErr result (FailsToWrite D.Disk disk.old disk.new) }
    ensures frame { WritesDisk D.Disk disk.old disk.new }

    // crashes
    ensures crash { LeavesOnly D.moment D.left_since disk.old disk.new (TornBehind offset (D.may_leave disk.old)) }
{
    if piece.is_empty() {
        return Ok(offset);
    }
    disk.write_at(offset, piece)?;
    Ok(offset + piece.len() as u64)
}

// Puts the columns of the segment at the offset: those of its lists, of its deltas and of its piece.
// Answers the offset behind them.
fn put_columns<D: Disk>(disk: &mut D, offset: u64, segment: &Segment) -> Result<u64, Failed>
    requires offset { HasOffset (D.image disk.old) offset }
    requires fits { offset + length (blobs segment.now) < 2 ^ 64 }
    ensures behind { IfOk result (λ n. n ≡ offset + length (blobs segment.now)) }
    ensures written { OnOk result (Moved (D.image disk.old) (D.image disk.new) (Grown offset (blobs segment.now))) }
    ensures ends { OnOk result (Moved (D.image disk.old) (D.image disk.new) (EndsBy offset (length (blobs segment.now)))) }
    ensures part { Moved (D.image disk.old) (D.image disk.new) (KeepsFront offset) }
    ensures cause { OnErr result (FailsToWrite D.Disk disk.old disk.new) }
    ensures frame { WritesDisk D.Disk disk.old disk.new }

    // crashes
    ensures crash { LeavesOnly D.moment D.left_since disk.old disk.new (TornBehind offset (D.may_leave disk.old)) }
{
    let deltas_offset = put(disk, offset, segment.list_columns())?;
    let piece_offset = put(disk, deltas_offset, segment.delta_columns())?;
    put(disk, piece_offset, segment.piece_columns())
}

// Writes the head and the columns of the segment from the offset on, and a closed gate behind them, and brings
// them to the device.
fn write_segment<D: Disk>(
    disk: &mut D,
    offset: u64,
    head: &[u8],
    segment: &Segment,
) -> Result<(), Failed>
    requires offset { HasOffset (D.image disk.old) offset }
    requires fits { offset + length head.now + length (blobs segment.now) + 1 < 2 ^ 64 }
    ensures written { OnOk result (Moved (D.image disk.old) (D.image disk.new) (Grown offset (head.now ++ blobs segment.now ++ 0 ∷ []))) }
    ensures ends { OnOk result (Moved (D.image disk.old) (D.image disk.new) (EndsBy offset (length (head.now ++ blobs segment.now) + 1))) }
    ensures part { Moved (D.image disk.old) (D.image disk.new) (KeepsFront offset) }
    ensures cause { OnErr result (FailsToWrite D.Disk disk.old disk.new) }
    ensures frame { WritesDisk D.Disk disk.old disk.new }

    // crashes
    ensures settled { OnOk result (IsOnDevice D.Disk disk.new) }
    ensures crash { LeavesOnly D.moment D.left_since disk.old disk.new (TornBehind offset (D.may_leave disk.old)) }
{
    let columns_offset = put(disk, offset, head)?;
    let gate_offset = put_columns(disk, columns_offset, segment)?;
    put(disk, gate_offset, &[CLOSED])?;
    disk.sync()
}

/// Writes the segment, in front of whose columns stands `head`, and a closed gate behind the first `used`
/// bytes, the last of which is a closed gate, and opens that gate once they are on the device. `Failed`
/// where the disk failed.
pub(crate) fn append<D: Disk>(
    disk: &mut D,
    used: u64,
    head: &[u8],
    segment: &Segment,
) -> Result<(), Failed>
    requires offset { HasOffset (D.image disk.old) used }
    requires some { 1 ≤ used }
    requires fits { used + length head.now + length (blobs segment.now) + 1 < 2 ^ 64 }
    ensures written { OnOk result (Moved (D.image disk.old) (D.image disk.new) (Gated (used - 1) 1 (head.now ++ blobs segment.now))) }
    ensures exact { OnOk result (Moved (D.image disk.old) (D.image disk.new) (JustGated (used - 1) 1 (head.now ++ blobs segment.now))) }
    ensures part { OnErr result (Moved (D.image disk.old) (D.image disk.new) (GatedOrNot used (head.now ++ blobs segment.now))) }
    ensures cause { OnErr result (FailsToWrite D.Disk disk.old disk.new) }
    ensures frame { WritesDisk D.Disk disk.old disk.new }

    // crashes
    ensures settled { OnOk result (IsOnDevice D.Disk disk.new) }
    ensures crash { LeftByCrash D.Disk disk.old disk.new (GatedOrNot used (head.now ++ blobs segment.now)) }
{
    write_segment(disk, used, head, segment)?;
    put_down(disk, used - 1, &[OPEN])
}

// The segment behind which a file goes on in the second form, and a closed gate behind it.
const MARKER: [u8; 25] = [
    0, 0, 0, 0, 0, 0, 0, 8, 0, 0, 0, 0, 0, 0, 0, 0, 0, 0, 0, 0, 0, 0, 0, 0, CLOSED,
];

/// Writes the marker behind which the file goes on in the second form, and a closed gate, behind the first `used`
/// bytes, the last of which is a closed gate, and opens that gate once they are on the device. `Failed` where the
/// disk failed.
pub(crate) fn append_marker<D: Disk>(disk: &mut D, used: u64) -> Result<(), Failed>
    requires offset { HasOffset (D.image disk.old) used }
    requires some { 1 ≤ used }
    ensures written { OnOk result (Moved (D.image disk.old) (D.image disk.new) (Gated (used - 1) 1 marker)) }
    ensures exact { OnOk result (Moved (D.image disk.old) (D.image disk.new) (JustGated (used - 1) 1 marker)) }
    ensures part { OnErr result (Moved (D.image disk.old) (D.image disk.new) (GatedOrNot used marker)) }
    ensures cause { OnErr result (FailsToWrite D.Disk disk.old disk.new) }
    ensures frame { WritesDisk D.Disk disk.old disk.new }

    // crashes
    ensures settled { OnOk result (IsOnDevice D.Disk disk.new) }
    ensures crash { LeftByCrash D.Disk disk.old disk.new (GatedOrNot used marker) }
{
    put_down(disk, used, &MARKER)?;
    put_down(disk, used - 1, &[OPEN])
}
