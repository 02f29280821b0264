//! The events of one column of a list.
ghost use Rattle.std.specs.Prelude.{◌<◌, IfOk, IfSome};
ghost use Rattle.dg_file.specs.Images.{IsOpenedAs};
ghost use Rattle.dg_heard.specs.Heard.{list_total};
ghost use Rattle.dg_heard.specs.ListColumns.{IsColumnRead, TakesColumn};
ghost use Rattle.dg_records.specs.Calls.{ReadsRecords};
ghost use Rattle.dg_records.specs.EventNames.{EventNamesAreThere};

use dg_disk::Disk;
use dg_file::Index;
use dg_fold::events_of;
use dg_graph::{Column, Event};
use dg_history::Key;
use dg_records::{RecordFault, read_events};
use std::alloc::Global;

/// The events of a column of a list of the index, in a history with so many names: the column is read once, where it has a
/// byte, and of a column that is longer than events can be the front, which tells that it is damaged.
///
/// `Disk` where the read failed, `Damaged` where the column is in no spelling, and `Memory`.
pub fn read_column<D: Disk>(
    alloc: Global,
    index: &Index,
    disk: &mut D,
    name_count: u32,
    list: u32,
    column: Column,
) -> Result<Vec<Event>, RecordFault>
    requires there { list < list_total index.now.opening }
    requires image { IfSome (D.image disk.old) (λ image. IsOpenedAs image index.now.opening) }

    // what it gives, and how many bytes it reads
    ensures read { IfSome (D.image disk.old) (λ image. IsColumnRead name_count image index.now.opening list column result) }
    ensures named { IfOk result (λ events. EventNamesAreThere name_count events.items) }
    ensures takes { IfSome (D.image disk.old) (λ image. TakesColumn index.now.opening list column (D.taken disk.old) (D.taken disk.new) result) }

    // what it leaves, and why the read failed
    ensures reads { ReadsRecords D.Disk disk.old disk.new result }
{
    // Its clauses tell which records the index keeps.
    index.facts();
    let placed = read_events(alloc, index, disk, name_count, Key::List(list), column)?;
    Ok(events_of(alloc, &placed)?)
}
