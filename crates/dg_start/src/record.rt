//! Reading the events of a record of an index.

ghost use Rattle.std.specs.Prelude.{◌≡◌, ◌≤◌, Ok, IfOk, IfErr, IfSome, IsErrOf, length, is_some, true};
ghost use Rattle.std.specs.List.{All};
ghost use Rattle.std.specs.Map.{lookup};
ghost use Rattle.dg_disk.specs.Calls.{Fails, ReadsDisk};
ghost use Rattle.dg_file.specs.Images.{IsOpenedAs};
ghost use Rattle.dg_records.specs.ColumnReads.{asked_length, kept_in, TakesOrFails};
ghost use Rattle.dg_text.specs.declared.limits.TheConstants.{NAMES_MAX};
ghost use Rattle.dg_graph.specs.declared.placed.Placed.{Placed};
ghost use Rattle.dg_history.specs.Keys.{same_key};
ghost use Rattle.dg_plan.specs.HistoryGraph.{all_columns};
ghost use Rattle.dg_start.specs.Calls.{EventIsInRange, IsReadRecord};
ghost use Rattle.dg_start.specs.Faults.{start_fault_of};
ghost use Rattle.dg_start.specs.RecentEvents.{events_in_source, placed_in_record};
ghost use Rattle.dg_start.specs.EventSources.{CanBeRead, WhereTold, source_of};
ghost use Rattle.dg_start.specs.Refusals.{IsReason};

use crate::event_source::EventSource;
use dg_columns::{MergeFault, Placed, merge};
use dg_disk::Disk;
use dg_file::Index;
use dg_graph::{Column, Event};
use dg_history::Key;
use dg_records::{RecordFault, read_events};
use std::alloc::Global;

// What a column of a record is read as, with so many names.
fn read_column<D: Disk>(
    alloc: Global,
    index: &Index,
    disk: &mut D,
    names: u32,
    key: Key,
    col: Column,
) -> Result<Vec<Placed>, RecordFault>
    requires held { is_some (lookup (same_key key) index.now.opening.records) ≡ true }
    requires names { names ≤ NAMES_MAX }
    requires image { IfSome (D.image disk.old) (λ image. IsOpenedAs image index.now.opening) }
    ensures read { IfOk result (λ placed. WhereTold (D.image disk.old)
        (λ image. placed_in_record image names index.now.opening key col ≡ Ok placed.items)) }
    ensures fit { IfOk result (λ placed. All (λ (p : Placed). EventIsInRange names p.event) placed.items) }
    ensures refused { IfErr result (λ fault. WhereTold (D.image disk.old)
        (λ image. IsReason (start_fault_of fault) (placed_in_record image names index.now.opening key col))) }
    ensures takes { WhereTold (D.image disk.old)
        (λ image. TakesOrFails result (length (kept_in image index.now.opening key col)) (D.taken disk.old) (D.taken disk.new)) }
    ensures cause { IsErrOf result RecordFault.Disk → Fails D.Disk disk.old disk.new }

    // what it leaves
    ensures disk { ReadsDisk D.Disk disk.old disk.new }
{
    read_events(alloc, index, disk, names, key, col)
}

/// The events of a record of an index that has so many names.
///
/// `RecordFault::Damaged` for the first column that no events are spelled as, or for structure where
/// the columns do not come together to as many events as are due; `RecordFault::Disk` where the disk failed,
/// `RecordFault::Memory` for want of memory.
pub fn read_record<D: Disk>(
    alloc: Global,
    index: &Index,
    disk: &mut D,
    names: u32,
    source: EventSource,
) -> Result<Vec<Event>, RecordFault>
    requires readable { CanBeRead index.now.opening (source_of source) }
    requires names { names ≤ NAMES_MAX }
    requires image { IfSome (D.image disk.old) (λ image. IsOpenedAs image index.now.opening) }
    ensures done { IfOk result (λ events. IsReadRecord (D.image disk.old) names index.now.opening (source_of source) events.items) }
    ensures refused { IfErr result (λ fault. WhereTold (D.image disk.old)
        (λ image. IsReason (start_fault_of fault) (events_in_source image names index.now.opening (source_of source)))) }
    ensures takes { WhereTold (D.image disk.old)
        (λ image. TakesOrFails result (asked_length (kept_in image index.now.opening) all_columns source.key) (D.taken disk.old) (D.taken disk.new)) }
    ensures cause { IsErrOf result RecordFault.Disk → Fails D.Disk disk.old disk.new }

    // what it leaves
    ensures disk { ReadsDisk D.Disk disk.old disk.new }
{
    let EventSource { key, count, .. } = source;
    let structure = read_column(alloc, index, disk, names, key, Column::Structure)?;
    let node_attrs = read_column(alloc, index, disk, names, key, Column::NodeAttr)?;
    let edge_attrs = read_column(alloc, index, disk, names, key, Column::EdgeAttr)?;
    let transient = read_column(alloc, index, disk, names, key, Column::Transient)?;
    match merge(
        alloc,
        &structure,
        &node_attrs,
        &edge_attrs,
        &transient,
        count as u32,
    ) {
        Ok(events) => Ok(events),
        Err(MergeFault::Positions) => Err(RecordFault::Damaged(key, Column::Structure)),
        Err(MergeFault::Memory) => Err(RecordFault::Memory),
    }
}
