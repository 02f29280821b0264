//! Reading a delta's column: its first bytes, and the rest where their counts fit its length.

ghost use Rattle.std.specs.Prelude.{◌≡◌, ◌+◌, ◌-◌, ◌<◌, ◌≤◌, ◌^◌, true, length, is_some, IfOk, IfSome, IsErrOf, OnErr, OnOk};
ghost use Rattle.std.specs.Map.{lookup};
ghost use Rattle.std.specs.Option.{ForSome};
ghost use Rattle.dg_disk.specs.Calls.{Fails, ReadsDisk};
ghost use Rattle.dg_disk.specs.Counts.{raised_by};
ghost use Rattle.dg_disk.specs.Image.{HasRange, IsRangeOf};
ghost use Rattle.dg_file.specs.Images.{IsOpenedAs};
ghost use Rattle.dg_history.specs.Keys.{same_key};
ghost use Rattle.dg_index.specs.OpenedIndex.{column_at, entry_at};
ghost use Rattle.dg_records.specs.ColumnReads.{TakesOrFails};
ghost use Rattle.dg_records.specs.DeltaFronts.{counts_fit, may_take, read_of_delta};

use dg_catalogue::{column_length, column_offset};
use dg_disk::{Disk, Failed};
use dg_file::{FetchFault, Index};
use dg_graph::Column;
use dg_history::Key;
use dg_numbers::u32_at;
use std::alloc::Global;

/// How many bytes of a delta's column are read first: the count of the elements that are taken out and, where it is 0, that of
/// those that are put in, which stands behind it.
pub const DELTA_FRONT: u64 = 8;

/// The fewest bytes that an element takes: a node has a kind and an id.
pub const SMALLEST_ELEMENT: u64 = 9;

/// The most bytes that an element takes: an edge has a kind, three ids, and whether it is directed.
pub const LARGEST_ELEMENT: u64 = 26;

// Whether so many elements may take so many bytes.
fn may_take(count: u32, bytes: u64) -> bool
    ensures { result ≡ may_take count bytes }
{
    let count = u64::from(count);
    SMALLEST_ELEMENT * count <= bytes && bytes <= LARGEST_ELEMENT * count
}

// Whether the counts that the first bytes of a delta's column tell fit its length.
fn counts_fit(front: &[u8], len: u64) -> bool
    requires front { length front.now ≡ DELTA_FRONT }
    requires len { DELTA_FRONT < len }
    ensures { result ≡ counts_fit front.now len }
{
    match u32_at(front, 0) {
        0 => may_take(u32_at(front, 4), len - DELTA_FRONT),
        out => DELTA_FRONT + SMALLEST_ELEMENT * u64::from(out) <= len,
    }
}

// Puts the bytes of a range of the image into the slice, of which the first are there: these are not read again.
fn read_rest<D: Disk>(
    disk: &mut D,
    offset: u64,
    front: &[u8],
    into: &mut [u8],
) -> Result<(), Failed>
    requires short { length front.now ≤ length into.old }
    requires small { offset + length into.old < 2 ^ 64 }
    requires range { HasRange (D.image disk.old) offset (length into.old) }
    requires front { IsRangeOf (D.image disk.old) offset front.now }
    ensures read { OnOk result (IsRangeOf (D.image disk.old) offset into.new) }
    ensures taken { OnOk result (D.taken disk.new ≡ raised_by (length into.old - length front.now) (D.taken disk.old)) }

    // errors
    ensures cause { OnErr result (Fails D.Disk disk.old disk.new) }
    ensures none_taken { OnErr result (D.taken disk.new ≡ D.taken disk.old) }

    // frame
    ensures frame { ReadsDisk D.Disk disk.old disk.new }
{
    let (head, rest) = into.split_at_mut(front.len());
    head.copy_from_slice(front);
    disk.read_at(offset + front.len() as u64, rest)
}

/// Reads a column of a record that the index keeps, as that of a delta is read: its first bytes, and the rest where their
/// counts fit its length. No byte is read twice.
///
/// `FetchFault::Disk` where the disk failed, `FetchFault::Memory` for want of memory.
pub(crate) fn read_delta<D: Disk>(
    alloc: Global,
    index: &Index,
    disk: &mut D,
    key: Key,
    col: Column,
) -> Result<Vec<u8>, FetchFault>
    requires held { is_some (lookup (same_key key) index.now.opening.records) ≡ true }
    requires image { IfSome (D.image disk.old) (λ image. IsOpenedAs image index.now.opening) }

    // what it gives, and how many bytes it reads
    ensures bytes { IfOk result (λ bytes. ForSome (D.image disk.old) (λ image. bytes.items ≡ read_of_delta (column_at image (entry_at index.now.opening key) col))) }
    ensures takes { ForSome (D.image disk.old) (λ image. TakesOrFails result (length (read_of_delta (column_at image (entry_at index.now.opening key) col))) (D.taken disk.old) (D.taken disk.new)) }

    // what it leaves, and why the read failed
    ensures disk { ReadsDisk D.Disk disk.old disk.new }
    ensures cause { IsErrOf result FetchFault.Disk → Fails D.Disk disk.old disk.new }
{
    let entry = index.catalogue().entry(key).unwrap();
    let len = column_length(&entry, col);
    if len <= DELTA_FRONT {
        return index.fetch(disk, key, col);
    }
    let offset = column_offset(&entry, col);
    let mut front = [0; DELTA_FRONT as usize];
    disk.read_at(offset, &mut front)?;
    if !counts_fit(&front, len) {
        return Ok(front.to_vec(alloc)?);
    }
    let mut bytes = vec![in alloc; 0; len as usize]?;
    read_rest(disk, offset, &front, &mut bytes)?;
    Ok(bytes)
}
