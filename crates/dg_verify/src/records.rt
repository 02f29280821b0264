//! Reading the events of a record, and comparing its columns.

ghost use Rattle.std.specs.Prelude.{◌≡◌, ◌<◌, ◌≤◌, ◌^◌, true, IfErr, IfOk, IfSome, IsErrOf, Ok, OnOk, None, bytes_eq, is_some, length};
ghost use Rattle.std.specs.List.{All};
ghost use Rattle.std.specs.Map.{lookup};
ghost use Rattle.dg_columns.specs.NamesInRange.{NamesFit};
ghost use Rattle.dg_disk.specs.Calls.{Fails, ReadsDisk};
ghost use Rattle.dg_file.specs.Images.{IsOpenedAs};
ghost use Rattle.dg_graph.specs.declared.event.Event.{Event};
ghost use Rattle.dg_graph.specs.declared.limits.TheConstants.{TIME_MAX};
ghost use Rattle.dg_history.specs.Keys.{same_key};
ghost use Rattle.dg_index.specs.FileOfHistory.{lent};
ghost use Rattle.dg_index.specs.OpenedIndex.{column_at, entry_at, opening, total};
ghost use Rattle.dg_records.specs.ColumnReads.{TakesAtMost};
ghost use Rattle.dg_records.specs.EventNames.{EventNamesAreThere};
ghost use Rattle.dg_sound.specs.OwnEvents.{events_of_record};
ghost use Rattle.dg_start.specs.EventSources.{WhereTold};
ghost use Rattle.dg_verify.specs.RecordBytes.{graph_total, length_at};
ghost use Rattle.dg_verify.specs.Verification.{IsStop, IsWrong, keyed, keyed_column, opened_with, unlike, unlike_events};

use crate::stop::Stop;
use dg_catalogue::column_length;
use dg_disk::Disk;
use dg_file::{FetchFault, Index};
use dg_graph::{Column, Event};
use dg_history::Key;
use dg_index::{Ends, PerColumn};
use dg_names::Names;
use dg_start::{EventSource, read_record};
use std::alloc::Global;

/// The events of a record of the index, which has so many.
///
/// `Stop::Wrong` for the first column that no events are spelled as, or for structure where the columns do not come
/// together to as many events; `Stop::Disk` where the disk failed, `Stop::Memory` for want of memory.
pub fn read_events<D: Disk>(
    alloc: Global,
    index: &Index,
    disk: &mut D,
    names: &Names,
    key: Key,
    count: u64,
) -> Result<Vec<Event>, Stop>
    requires held { is_some (lookup (same_key key) index.now.opening.records) ≡ true }
    requires few { count < 2 ^ 32 }
    requires image { IfSome (D.image disk.old) (λ image. opening image ≡ Ok (opened_with index.now.opening names.now)) }
    ensures read { IfOk result (λ events. WhereTold (D.image disk.old)
        (λ image. events_of_record image (opened_with index.now.opening names.now) key count ≡ Ok events.items)) }
    ensures fit { IfOk result (λ events. All (λ (e : Event). NamesFit e.body) events.items) }
    ensures named { IfOk result (λ events. EventNamesAreThere (length names.now) events.items) }
    ensures timed { IfOk result (λ events. All (λ (e : Event). e.time ≤ TIME_MAX) events.items) }
    ensures many { IfOk result (λ events. length events.items ≡ count) }
    ensures stopped { IfErr result (λ stop. WhereTold (D.image disk.old)
        (λ image. IsStop stop (keyed key (events_of_record image (opened_with index.now.opening names.now) key count)))) }
    ensures cause { IsErrOf result Stop.Disk → Fails D.Disk disk.old disk.new }

    // what it reads, and what it leaves
    ensures takes { WhereTold (D.image disk.old) (λ image. TakesAtMost (total (entry_at index.now.opening key).lengths) (D.taken disk.old) (D.taken disk.new)) }
    ensures disk { ReadsDisk D.Disk disk.old disk.new }
{
    // The bounds of the times are for the recent events alone.
    let ends = Ends { first: 0, last: 0 };
    let source = EventSource { key, count, ends };
    Ok(read_record(alloc, index, disk, names.len(), source)?)
}

// Whether the record has this column. A record that the index does not keep has no byte. A column of another length is
// another column: then nothing is read.
fn is_column<D: Disk>(
    index: &Index,
    disk: &mut D,
    key: Key,
    col: Column,
    due: &[u8],
) -> Result<bool, FetchFault>
    requires image { IfSome (D.image disk.old) (λ image. IsOpenedAs image index.now.opening) }
    ensures is { IfOk result (λ is. WhereTold (D.image disk.old)
        (λ image. is ≡ bytes_eq (column_at image (entry_at index.now.opening key) col) due.now)) }
    ensures cause { IsErrOf result FetchFault.Disk → Fails D.Disk disk.old disk.new }

    // what it reads, and what it leaves
    ensures takes { WhereTold (D.image disk.old) (λ image. TakesAtMost (length_at (entry_at index.now.opening key).lengths col) (D.taken disk.old) (D.taken disk.new)) }
    ensures disk { ReadsDisk D.Disk disk.old disk.new }
{
    let Some(entry) = index.entry(key) else {
        return Ok(due.is_empty());
    };
    if column_length(&entry, col) != due.len() as u64 {
        return Ok(false);
    }
    let bytes = index.fetch(disk, key, col)?;
    Ok(bytes.as_slice() == due)
}

/// Compares the columns of the record with these, but for that of messages. `Stop::Wrong` for the first that is
/// another, `Stop::Disk` where the disk failed, `Stop::Memory` for want of memory.
pub fn compare_columns<D: Disk>(
    index: &Index,
    disk: &mut D,
    key: Key,
    due: PerColumn<&[u8]>,
) -> Result<(), Stop>
    requires image { IfSome (D.image disk.old) (λ image. IsOpenedAs image index.now.opening) }
    ensures alike { OnOk result (WhereTold (D.image disk.old)
        (λ image. unlike image index.now.opening key (lent due.entry) ≡ None)) }
    ensures stopped { IfErr result (λ stop. WhereTold (D.image disk.old)
        (λ image. IsWrong stop (keyed_column key (unlike image index.now.opening key (lent due.entry))))) }
    ensures cause { IsErrOf result Stop.Disk → Fails D.Disk disk.old disk.new }

    // what it reads, and what it leaves
    ensures takes { WhereTold (D.image disk.old) (λ image. TakesAtMost (graph_total (entry_at index.now.opening key).lengths) (D.taken disk.old) (D.taken disk.new)) }
    ensures disk { ReadsDisk D.Disk disk.old disk.new }
{
    let is_structure = is_column(index, disk, key, Column::Structure, due.structure)?;
    if !is_structure {
        return Err(Stop::Wrong(key, Column::Structure));
    }
    let are_node_attrs = is_column(index, disk, key, Column::NodeAttr, due.node_attrs)?;
    if !are_node_attrs {
        return Err(Stop::Wrong(key, Column::NodeAttr));
    }
    let are_edge_attrs = is_column(index, disk, key, Column::EdgeAttr, due.edge_attrs)?;
    if !are_edge_attrs {
        return Err(Stop::Wrong(key, Column::EdgeAttr));
    }
    Ok(())
}

/// Compares the columns of a record of events with these, and that of messages at last. `Stop::Wrong` for the first that is
/// another, `Stop::Disk` where the disk failed, `Stop::Memory` for want of memory.
pub fn compare_event_columns<D: Disk>(
    index: &Index,
    disk: &mut D,
    key: Key,
    due: PerColumn<&[u8]>,
) -> Result<(), Stop>
    requires image { IfSome (D.image disk.old) (λ image. IsOpenedAs image index.now.opening) }
    ensures alike { OnOk result (WhereTold (D.image disk.old)
        (λ image. unlike_events image index.now.opening key (lent due.entry) ≡ None)) }
    ensures stopped { IfErr result (λ stop. WhereTold (D.image disk.old)
        (λ image. IsWrong stop (keyed_column key (unlike_events image index.now.opening key (lent due.entry))))) }
    ensures cause { IsErrOf result Stop.Disk → Fails D.Disk disk.old disk.new }

    // what it reads, and what it leaves
    ensures takes { WhereTold (D.image disk.old) (λ image. TakesAtMost (total (entry_at index.now.opening key).lengths) (D.taken disk.old) (D.taken disk.new)) }
    ensures disk { ReadsDisk D.Disk disk.old disk.new }
{
    compare_columns(index, disk, key, due)?;
    let are_transient = is_column(index, disk, key, Column::Transient, due.transient)?;
    if !are_transient {
        return Err(Stop::Wrong(key, Column::Transient));
    }
    Ok(())
}
