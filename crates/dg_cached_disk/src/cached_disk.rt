//! A disk over another one. What ties the bytes that are kept to that disk is the ghost field `kept`, which may name its
//! image, since the disk is a field beside it.
ghost use Rattle.std.specs.Prelude.{◌≡◌, [], false, true};
ghost use Rattle.dg_disk.specs.Counts.{raised_by};
ghost use Rattle.dg_cached_disk.specs.Standing.{stand};

use crate::RangeCache;
use dg_disk::{Disk, Failed};
use std::alloc::Global;

/// A disk that keeps in memory what was read of another one last, and gives it from there. It keeps nothing of what is
/// read before repeats are expected of it, and a write drops all that is kept. As bytes read it counts those, too, that it
/// gives from memory.
#[derive(Drop)]
pub struct CachedDisk<D: Disk> {
    disk: D,
    alloc: Global,
    ranges: RangeCache,
    // whether repeats are expected
    keeps: bool,
    // the bytes given from memory, held at the last value of a u64
    given: u64,
    ghost kept: { stand (D.image disk) ranges.ranges ≡ true },
    ghost unkept: { keeps ≡ false → ranges.ranges ≡ [] },
}

impl<D: Disk + Drop> CachedDisk<D> {
    /// Over the disk, of which nothing is asked, with room for these ranges, of which there is none yet.
    pub fn new(alloc: Global, disk: D, ranges: RangeCache) -> CachedDisk<D>
        requires { ranges.ranges ≡ [] }
        ensures disk { result.disk ≡ disk }
        ensures given { result.given ≡ 0 }
        ensures keeps { result.keeps ≡ false }
    {
        CachedDisk {
            disk,
            alloc,
            ranges,
            keeps: false,
            given: 0,
        }
    }

    /// The disk of which it keeps what was read.
    pub fn disk(&self) -> &D
        ensures disk { result.now ≡ self.now.disk }
    {
        &self.disk
    }
}

impl<D: Disk> Disk for CachedDisk<D> {
    ghost image = { λ c. D.image c.disk };

    ghost faults = { λ c. D.faults c.disk };

    ghost write_faults = { λ c. D.write_faults c.disk };

    ghost taken = { λ c. raised_by c.given (D.taken c.disk) };

    ghost cached = { λ c. c.given };

    ghost may_leave = { λ c. D.may_leave c.disk };

    ghost moment = { λ c. D.moment c.disk };

    ghost left_since = { λ c. D.left_since c.disk };

    fn len(&mut self) -> Result<u64, Failed> {
        self.disk.len()
    }

    fn read_at(&mut self, offset: u64, into: &mut [u8]) -> Result<(), Failed> {
        if !self.keeps {
            return self.disk.read_at(offset, into);
        }
        if self.ranges.give(offset, into) {
            self.given = self.given.saturating_add(into.len() as u64);
            return Ok(());
        }
        self.disk.read_at(offset, into)?;
        // What finds no memory is not kept.
        if let Ok(bytes) = Vec::from_slice(self.alloc, into) {
            self.ranges.keep(offset, bytes);
        }
        Ok(())
    }

    fn write_at(&mut self, offset: u64, piece: &[u8]) -> Result<(), Failed> {
        self.ranges.clear();
        self.disk.write_at(offset, piece)
    }

    fn sync(&mut self) -> Result<(), Failed> {
        self.disk.sync()
    }

    fn expect_repeats(&mut self) {
        self.keeps = true;
        self.disk.expect_repeats();
    }

    ghost leaves_image = { λ c. D.leaves_image c.disk };

    ghost counts_now = { λ c. D.counts_now c.disk };

    ghost only_now = { λ c. D.only_now c.disk };
}
