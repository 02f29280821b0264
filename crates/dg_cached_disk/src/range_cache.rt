//! The ranges of a file that were read last, each found by its offset and given only where its length is the one asked
//! for. The ranges stand as they were read: whoever writes the file clears them.
ghost use Rattle.std.specs.Prelude.{◌≡◌, ◌≤◌, ℕ, List, [], false, true, length, take, drop, IfOk};
ghost use Rattle.std.specs.NonZero.{non_zero_usize_get};
ghost use Rattle.dg_cached_disk.specs.Ranges.{AreRangesOf, StandsIn};

use lru::LruCache;
use std::alloc::{AllocError, Global};
use std::marker::Model;
use std::num::NonZeroUsize;

/// The ranges of a file that were read last, by the offset of their first byte, at most so many. It may
/// keep fewer than it could.
#[derive(Drop)]
pub struct RangeCache {
    ranges: LruCache<u64, Vec<u8>>,
}

impl Model for RangeCache {
    ghost use Rattle.std.specs.Prelude.{map};
    ghost use Rattle.dg_cached_disk.specs.Ranges.{Kept};

    ghost Value = { Kept };

    ghost view = { λ cache. record { ranges = map (λ e. (e.0, e.1.items)) cache.ranges.entries; most = cache.ranges.cap } };
}

impl RangeCache {
    /// A cache with no range, for at most so many. `AllocError` for want of memory.
    pub fn new(alloc: Global, most: NonZeroUsize) -> Result<RangeCache, AllocError>
        ensures none { IfOk result (λ cache. cache.ranges ≡ []) }
        ensures most { IfOk result (λ cache. cache.most ≡ non_zero_usize_get most) }
    {
        let ranges = LruCache::sparse(alloc, most)?;
        Ok(RangeCache { ranges })
    }

    /// Fills `into` with the range of its length, and answers whether it is kept. It is then the last that
    /// goes.
    pub fn give(&mut self, offset: u64, into: &mut [u8]) -> bool
        ensures given { (image : List ℕ) → AreRangesOf image self.old.ranges → result ≡ true → into.new ≡ take (length into.old) (drop offset image) }
        ensures absent { result ≡ false → into.new ≡ into.old }
        ensures still { (image : List ℕ) → AreRangesOf image self.old.ranges → AreRangesOf image self.new.ranges }
        ensures few { length self.new.ranges ≤ self.new.most }
        ensures most { self.new.most ≡ self.old.most }
    {
        self.ranges.promote(&offset);
        // Its clause says that there are no more than may be, here as below.
        self.ranges.len();
        let Some(bytes) = self.ranges.peek(&offset) else {
            return false;
        };
        if bytes.len() != into.len() {
            return false;
        }
        into.copy_from_slice(bytes);
        true
    }

    /// Keeps the range, in place of the one that was used least lately where there are as many as there may be. For
    /// want of memory it is not kept.
    pub fn keep(&mut self, offset: u64, bytes: Vec<u8>)
        ensures still { (image : List ℕ) → AreRangesOf image self.old.ranges → StandsIn image (offset, bytes.items) → AreRangesOf image self.new.ranges }
        ensures few { length self.new.ranges ≤ self.new.most }
        ensures most { self.new.most ≡ self.old.most }
    {
        if bytes.is_empty() {
            self.ranges.len();
            return;
        }
        let _ = self.ranges.put(offset, bytes);
        self.ranges.len();
    }

    /// Drops all ranges.
    pub fn clear(&mut self)
        ensures none { self.new.ranges ≡ [] }
        ensures most { self.new.most ≡ self.old.most }
    {
        self.ranges.clear();
    }
}
