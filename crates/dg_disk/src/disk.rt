//! The disk: bytes that are read and written at any offset, and what each call leaves of them.
ghost use Rattle.std.specs.Prelude.{◌≡◌, ◌≤◌, ℕ, List, length, IfOk, OnOk, OnErr, IfSome, Option};
ghost use Rattle.dg_disk.specs.Counts.{Rose, raised_by};
ghost use Rattle.dg_disk.specs.Crash.{IsSettled, LeavesTorn, Passes};
ghost use Rattle.dg_disk.specs.Frame.{OnlyReads, OnlyWrites, ReadsAndSyncs};
ghost use Rattle.dg_disk.specs.Image.{HasOffset, HasRange, IsLengthOf, IsRangeOf, WritesPart, with_piece};

use thiserror::Error;

/// The failure of one call of a disk. The disk's count of failures rose in that call.
#[derive(Clone, Copy, Debug, PartialEq, Eq, Error)]
#[error("a call of the disk failed")]
pub struct Failed;

/// A run of bytes that is read and written at any offset, and that outlives the program once it is
/// synced. It grows by writes, and no call cuts it. Offsets and lengths are in bytes.
pub trait Disk {
    // The bytes as they read, where the disk tells them.
    ghost image: { Self → Option (List ℕ) };

    // How many calls have failed. It never falls.
    ghost faults: { Self → ℕ };

    // How many writes and syncs have failed. It never falls.
    ghost write_faults: { Self → ℕ };

    // The bytes read so far, held at the last value of a u64.
    ghost taken: { Self → ℕ };

    // How many of these bytes the disk gave from memory that it keeps itself, and did not read. It never falls.
    ghost cached: { Self → ℕ };

    // What a crash now may leave.
    ghost may_leave: { Self → List ℕ → Type 0 };

    // The moment, as a number that never falls.
    ghost moment: { Self → ℕ };

    // What a crash at some moment since that one might have left, within a call or between two.
    ghost left_since: { Self → ℕ → List ℕ → Type 0 };

    /// The length of the image. `Failed` where the disk failed.
    fn len(&mut self) -> Result<u64, Failed>
        ensures len { IfOk result (λ n. IsLengthOf (image self.old) n) }

        // errors
        ensures cause { OnErr result (Rose (faults self.old) (faults self.new)) }

        // frame
        ensures frame { OnlyReads image faults write_faults cached may_leave moment left_since self.old self.new }
        ensures same_taken { taken self.new ≡ taken self.old }

        // crashes
        ensures time { Passes (moment self.old) (moment self.new) (left_since self.old) (left_since self.new) (may_leave self.new) };

    /// Fills `into` with the bytes of the image from the offset on. `Failed` where the disk failed or
    /// has too few bytes: then `into` may hold any bytes.
    fn read_at(&mut self, offset: u64, into: &mut [u8]) -> Result<(), Failed>
        requires { HasRange (image self.old) offset (length into.old) }
        ensures read { OnOk result (IsRangeOf (image self.old) offset into.new) }
        ensures taken { OnOk result (taken self.new ≡ raised_by (length into.new) (taken self.old)) }

        // errors
        ensures cause { OnErr result (Rose (faults self.old) (faults self.new)) }
        ensures none_taken { OnErr result (taken self.new ≡ taken self.old) }

        // frame
        ensures frame { OnlyReads image faults write_faults cached may_leave moment left_since self.old self.new }

        // crashes
        ensures time { Passes (moment self.old) (moment self.new) (left_since self.old) (left_since self.new) (may_leave self.new) };

    /// Puts the piece at the offset, over what is there and past the end. `Failed` where the disk
    /// failed: then the range may hold any bytes, and the image may have grown up to its end.
    fn write_at(&mut self, offset: u64, piece: &[u8]) -> Result<(), Failed>
        requires { HasOffset (image self.old) offset }
        ensures written { OnOk result (image self.new ≡ with_piece offset piece.now (image self.old)) }

        // errors
        ensures part { OnErr result (WritesPart offset (length piece.now) (image self.old) (image self.new)) }
        ensures cause { OnErr result (Rose (faults self.old) (faults self.new)) }
        ensures write_cause { OnErr result (Rose (write_faults self.old) (write_faults self.new)) }

        // frame
        ensures frame { OnlyWrites image faults write_faults taken cached self.old self.new }

        // crashes
        ensures crash { LeavesTorn offset (length piece.now) (may_leave self.old) (may_leave self.new) }
        ensures time { Passes (moment self.old) (moment self.new) (left_since self.old) (left_since self.new) (may_leave self.new) };

    /// Brings what was written to the device, so that it outlives a crash. `Failed` where the disk
    /// failed: then what was written since the last sync may be lost in a crash.
    fn sync(&mut self) -> Result<(), Failed>
        ensures settled { OnOk result (IsSettled (image self.new) (may_leave self.new)) }

        // errors
        ensures cause { OnErr result (Rose (faults self.old) (faults self.new)) }
        ensures write_cause { OnErr result (Rose (write_faults self.old) (write_faults self.new)) }

        // frame
        ensures frame { ReadsAndSyncs image faults write_faults cached may_leave moment left_since self.old self.new }
        ensures same_taken { taken self.new ≡ taken self.old }

        // crashes
        ensures time { Passes (moment self.old) (moment self.new) (left_since self.old) (left_since self.new) (may_leave self.new) };

    /// Says that what is read from here on may be asked for again. It is a hint: a disk may keep such bytes in
    /// memory, and most do nothing here.
    fn expect_repeats(&mut self)
        // frame
        ensures frame { OnlyReads image faults write_faults cached may_leave moment left_since self.old self.new }
        ensures same_taken { taken self.new ≡ taken self.old }
        ensures none_failed { faults self.new ≡ faults self.old }

        // crashes
        ensures time { Passes (moment self.old) (moment self.new) (left_since self.old) (left_since self.new) (may_leave self.new) }
    {}

    // The image, where it is told, is among what a crash may leave.
    ghost leaves_image: { (disk : Self) → IfSome (image disk) (may_leave disk) };

    // The present moment is one of those since an earlier one.
    ghost counts_now: { (disk : Self) (t : ℕ) (c : List ℕ) → t ≤ moment disk → may_leave disk c → left_since disk t c };

    // Since the present moment there is no other.
    ghost only_now: { (disk : Self) (c : List ℕ) → left_since disk (moment disk) c → may_leave disk c };
}
