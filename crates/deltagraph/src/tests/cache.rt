//! Ranges of a file that are kept: which of them goes first, and when one is read of the disk below.
ghost use Rattle.std.specs.Prelude.{◌≡◌, [], IfOk};

use super::disk::{expects_repeats, read, write};
use dg_cached_disk::{CachedDisk, RangeCache};
use dg_disk::MemoryDisk;
use std::alloc::{AllocError, Global};
use std::num::NonZeroUsize;
use std::process::Abort;
use std::test::Fail;

// Room for two ranges.
fn two(alloc: Global) -> Result<RangeCache, AllocError>
    ensures { IfOk result (λ ranges. ranges.ranges ≡ []) }
{
    RangeCache::new(alloc, NonZeroUsize::new(2).unwrap())
}

// The ranges of two bytes at each of these offsets are kept, or are not.
fn keeps(abort: &impl Abort, ranges: &mut RangeCache, wanted: &[(u64, bool)]) {
    for &(offset, is_kept) in wanted {
        let mut into = [0; 2];
        let is_given = ranges.give(offset, &mut into);
        assert_eq!(abort; is_given, is_kept);
    }
}

#[test]
fn the_range_used_least_lately_goes_first(rt: HostRuntime) -> Result<(), Fail> {
    let mut ranges = two(rt.alloc())?;
    ranges.keep(10, Vec::from_slice(rt.alloc(), b"ab")?);
    ranges.keep(20, Vec::from_slice(rt.alloc(), b"cd")?);
    keeps(&rt, &mut ranges, &[(10, true)]);
    ranges.keep(30, Vec::from_slice(rt.alloc(), b"ef")?);
    keeps(&rt, &mut ranges, &[(10, true), (20, false), (30, true)]);
    ranges.clear();
    keeps(&rt, &mut ranges, &[(10, false), (30, false)]);
    Ok(())
}

#[test]
fn a_range_of_another_length_is_not_given(rt: HostRuntime) -> Result<(), Fail> {
    let mut ranges = two(rt.alloc())?;
    ranges.keep(10, Vec::from_slice(rt.alloc(), b"abc")?);
    keeps(&rt, &mut ranges, &[(10, false)]);
    Ok(())
}

// Three bytes at the offset, behind which so many were read of the disk below.
fn reads(
    abort: &impl Abort,
    disk: &mut CachedDisk<MemoryDisk>,
    offset: u64,
    wanted: [u8; 3],
    taken: u64,
) {
    let len = disk.disk().image().len() as u64;
    let is_within = offset <= len && 3 <= len - offset;
    assert!(abort; is_within);
    assert_eq!(abort; read(disk, offset), Ok(wanted));
    assert_eq!(abort; disk.disk().taken(), taken);
}

// A write at an offset that is within the image or at its end.
fn writes(abort: &impl Abort, disk: &mut CachedDisk<MemoryDisk>, offset: u64, piece: &[u8]) {
    let is_within = offset <= disk.disk().image().len() as u64;
    assert!(abort; is_within);
    assert_eq!(abort; write(disk, offset, piece), Ok(()));
}

#[test]
fn nothing_is_kept_before_repeats_are_expected(rt: HostRuntime) -> Result<(), Fail> {
    let file = MemoryDisk::new(rt.alloc(), b"abcdef", 6, 100, &[])?;
    let mut disk = CachedDisk::new(rt.alloc(), file, two(rt.alloc())?);
    reads(&rt, &mut disk, 1, *b"bcd", 3);
    reads(&rt, &mut disk, 1, *b"bcd", 6);
    expects_repeats(&mut disk);
    reads(&rt, &mut disk, 1, *b"bcd", 9);
    reads(&rt, &mut disk, 1, *b"bcd", 9);
    Ok(())
}

#[test]
fn a_range_is_read_once_until_a_write(rt: HostRuntime) -> Result<(), Fail> {
    let file = MemoryDisk::new(rt.alloc(), b"abcdef", 6, 100, &[])?;
    let mut disk = CachedDisk::new(rt.alloc(), file, two(rt.alloc())?);
    expects_repeats(&mut disk);
    reads(&rt, &mut disk, 1, *b"bcd", 3);
    reads(&rt, &mut disk, 1, *b"bcd", 3);
    reads(&rt, &mut disk, 2, *b"cde", 6);
    reads(&rt, &mut disk, 1, *b"bcd", 6);
    writes(&rt, &mut disk, 3, b"XY");
    reads(&rt, &mut disk, 1, *b"bcX", 9);
    reads(&rt, &mut disk, 2, *b"cXY", 12);
    Ok(())
}
