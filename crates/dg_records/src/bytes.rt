//! The bytes that are read of a column of a record.

ghost use Rattle.std.specs.Prelude.{◌≡◌, true, length, is_some, IfOk, IfSome, IsErrOf};
ghost use Rattle.std.specs.Map.{lookup};
ghost use Rattle.std.specs.Option.{ForSome};
ghost use Rattle.dg_disk.specs.Calls.{Fails, ReadsDisk};
ghost use Rattle.dg_file.specs.Images.{IsOpenedAs};
ghost use Rattle.dg_history.specs.Keys.{same_key};
ghost use Rattle.dg_records.specs.ColumnReads.{TakesOrFails, is_events, kept_in};

use crate::delta::read_delta;
use dg_columns::EVENTS_FRONT;
use dg_disk::Disk;
use dg_file::{FetchFault, Index};
use dg_graph::Column;
use dg_history::Key;
use std::alloc::Global;

/// Whether the record with the key holds events.
pub fn is_events(key: Key) -> bool
    ensures { result ≡ is_events key }
{
    match key {
        Key::List(_) | Key::Piece(_) => true,
        Key::Top(_) | Key::Down(_, _) => false,
    }
}

/// Reads a column of a record that the index keeps. Of a column of events that is longer than events can be the front is
/// read, and of a delta's whose counts do not fit its length the first bytes: they tell that it is damaged. No byte is read
/// twice.
///
/// `FetchFault::Disk` where the disk failed, `FetchFault::Memory` for want of memory.
pub fn read_bytes<D: Disk>(
    alloc: Global,
    index: &Index,
    disk: &mut D,
    key: Key,
    col: Column,
) -> Result<Vec<u8>, FetchFault>
    requires held { is_some (lookup (same_key key) index.now.opening.records) ≡ true }
    requires image { IfSome (D.image disk.old) (λ image. IsOpenedAs image index.now.opening) }

    // what it gives, and how many bytes it reads
    ensures bytes { IfOk result (λ bytes. ForSome (D.image disk.old) (λ image. bytes.items ≡ kept_in image index.now.opening key col)) }
    ensures takes { ForSome (D.image disk.old) (λ image. TakesOrFails result (length (kept_in image index.now.opening key col)) (D.taken disk.old) (D.taken disk.new)) }

    // what it leaves, and why the read failed
    ensures disk { ReadsDisk D.Disk disk.old disk.new }
    ensures cause { IsErrOf result FetchFault.Disk → Fails D.Disk disk.old disk.new }
{
    if is_events(key) {
        index.fetch_front(disk, key, col, EVENTS_FRONT)
    } else {
        read_delta(alloc, index, disk, key, col)
    }
}
