//! What is taken of a disk over another one, and of the disk below it. The function does nothing: its clause is the law.

ghost use Rattle.std.specs.Prelude.{◌<◌, ◌≤◌, ℕ};
ghost use Rattle.dg_disk.specs.Calls.{UsesDisk};
ghost use Rattle.dg_disk.specs.Counts.{raised_by};
ghost use Rattle.dg_cached_disk.specs.declared.cached_disk.CachedDisk.{CachedDisk};

use crate::cached_disk::CachedDisk;
use dg_disk::Disk;

/// Calls that take at most so many bytes of both together take at most as many of the disk below alone, as long as the
/// count of both is below the last value of a u64.
pub fn law_of_the_disk_below_no_more_is_taken<D: Disk>()
    ensures { (old new : CachedDisk D D.Disk) (weight : ℕ) → UsesDisk ⟦<CachedDisk<D> as Disk>⟧ old new
        → ⟦<CachedDisk<D> as Disk>⟧.taken new ≤ raised_by weight (⟦<CachedDisk<D> as Disk>⟧.taken old)
        → ⟦<CachedDisk<D> as Disk>⟧.taken new < 18446744073709551615
        → D.taken new.disk ≤ raised_by weight (D.taken old.disk) }
{}
