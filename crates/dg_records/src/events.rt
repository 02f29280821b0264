//! The events that a column of a record is read as.

ghost use Rattle.std.specs.Prelude.{◌≡◌, true, length, is_some, IfOk, IfSome};
ghost use Rattle.std.specs.Map.{lookup};
ghost use Rattle.std.specs.Option.{ForSome};
ghost use Rattle.dg_columns.specs.ReadFits.{PlacedFit};
ghost use Rattle.dg_catalogue.specs.Entries.{column_length_in};
ghost use Rattle.dg_file.specs.Images.{IsOpenedAs};
ghost use Rattle.dg_history.specs.Keys.{same_key};
ghost use Rattle.dg_index.specs.OpenedIndex.{entry_at};
ghost use Rattle.dg_records.specs.Calls.{IsPlacedRead, ReadsRecords};
ghost use Rattle.dg_records.specs.ColumnReads.{TakesOrFails, kept_in};

use crate::bytes::read_bytes;
use crate::fault::RecordFault;
use dg_columns::{ReadFault, read_events as placed_events};
use dg_disk::Disk;
use dg_file::Index;
use dg_graph::{Column, Placed};
use dg_history::Key;
use std::alloc::Global;

/// The events that a column of a record that the index keeps is read as, with their positions, in a history with so many
/// names. They rise in their positions, do not fall in time, stand in the column, and name what there is.
///
/// `Disk` where the read failed, `Damaged` where the column is in no spelling, and `Memory`.
pub fn read_events<D: Disk>(
    alloc: Global,
    index: &Index,
    disk: &mut D,
    name_count: u32,
    key: Key,
    col: Column,
) -> Result<Vec<Placed>, RecordFault>
    requires held { is_some (lookup (same_key key) index.now.opening.records) ≡ true }
    requires image { IfSome (D.image disk.old) (λ image. IsOpenedAs image index.now.opening) }

    // what it gives
    ensures read { ForSome (D.image disk.old) (λ image. IsPlacedRead name_count image index.now.opening key col result) }
    ensures fits { IfOk result (λ placed. PlacedFit col name_count 0 0 placed.items) }

    // how many bytes it reads, and that these are the column where it is read as events
    ensures takes { ForSome (D.image disk.old) (λ image. TakesOrFails result (length (kept_in image index.now.opening key col)) (D.taken disk.old) (D.taken disk.new)) }
    ensures all { ForSome (D.image disk.old) (λ image. TakesOrFails result (column_length_in (entry_at index.now.opening key) col) (D.taken disk.old) (D.taken disk.new)) }

    // what it leaves, and why the read failed
    ensures reads { ReadsRecords D.Disk disk.old disk.new result }
{
    let bytes = read_bytes(alloc, index, disk, key, col)?;
    match placed_events(alloc, &bytes, col, name_count) {
        Ok(placed) => Ok(placed),
        Err(ReadFault::Damaged(_)) => Err(RecordFault::Damaged(key, col)),
        Err(ReadFault::Memory) => Err(RecordFault::Memory),
    }
}
