//! An index of the values of a key, read from the lists.
ghost use Rattle.std.specs.Prelude.{◌≡◌, ◌<◌, IfOk, IfSome, OnOk};
ghost use Rattle.std.specs.List.{list_all};
ghost use Rattle.dg_file.specs.Images.{IsOpenedAs};
ghost use Rattle.dg_graph.specs.declared.element.Column.TheVariants as column;
ghost use Rattle.dg_heard.specs.Heard.{list_total};
ghost use Rattle.dg_range.specs.ColumnRuns.{TakesColumns, bytes_along};
ghost use Rattle.dg_heard.specs.ListColumns.{TakesColumn, bytes_at};
ghost use Rattle.dg_range.specs.ListValues.{AreTurnsIn, IsListRead, SaysValuesOf, TellsValueDamage, all_node_columns, lies_in};
ghost use Rattle.dg_records.specs.Calls.{ReadsRecords};

use dg_aux::Aux;
use dg_disk::Disk;
use dg_file::Index;
use dg_graph::{Column, Event};
use dg_heard::{list_total, read_column};
use dg_history::Key;
use dg_index::Ends;
use dg_records::RecordFault;
use std::alloc::Global;

// The bytes of the column of node attributes of a list.
fn list_value_bytes(index: &Index, list: u32) -> u64
    ensures { result ≡ bytes_at index.now.opening list column.NodeAttr }
{
    match index.entry(Key::List(list)) {
        Some(entry) => entry.lengths.node_attrs,
        None => 0,
    }
}

/// The bytes of the columns of node attributes of all lists.
pub fn values_bytes(index: &Index) -> u64
    ensures { result ≡ bytes_along index.now.opening (all_node_columns index.now.opening) }
{
    // Its clauses tell that the columns of all records are together in the file.
    index.facts();
    let total = list_total(index);
    let mut bytes = 0;
    let mut list = 0;
    while list < total {
        bytes += list_value_bytes(index, list);
        list += 1;
    }
    bytes
}

// Whether an event lies within these times.
fn lies_in(ends: Option<Ends>, event: &Event) -> bool
    ensures { result ≡ lies_in ends event.now }
{
    match ends {
        Some(ends) => ends.first <= event.time && event.time <= ends.last,
        None => false,
    }
}

// Whether all of these events do.
fn all_lie_in(ends: Option<Ends>, events: &[Event]) -> bool
    ensures { result ≡ list_all (lies_in ends) events.now }
{
    events.iter().all(|event| lies_in(ends, event))
}

// The events of the column of node attributes of a list. One that lies outside the times of its list is damage.
fn list_values<D: Disk>(
    alloc: Global,
    index: &Index,
    disk: &mut D,
    name_count: u32,
    list: u32,
) -> Result<Vec<Event>, RecordFault>
    requires there { list < list_total index.now.opening }
    requires image { IfSome (D.image disk.old) (λ image. IsOpenedAs image index.now.opening) }

    // what it gives, and how many bytes it reads
    ensures read { IfSome (D.image disk.old) (λ image. IsListRead name_count image index.now.opening list result) }
    ensures takes { IfSome (D.image disk.old) (λ image. TakesColumn index.now.opening list column.NodeAttr (D.taken disk.old) (D.taken disk.new) result) }

    // what it leaves, and why the read failed
    ensures reads { ReadsRecords D.Disk disk.old disk.new result }
{
    let events = read_column(alloc, index, disk, name_count, list, Column::NodeAttr)?;
    if !all_lie_in(index.catalogue().list_ends(list), &events) {
        return Err(RecordFault::Damaged(Key::List(list), Column::NodeAttr));
    }
    Ok(events)
}

// Adds the turns of the events that the columns of node attributes of all lists are read as.
//
// `Disk` where a read failed, `Damaged` with the first of these columns that is damaged, and `Memory`.
fn push_values<D: Disk>(
    alloc: Global,
    index: &Index,
    disk: &mut D,
    name_count: u32,
    aux: &mut Aux,
) -> Result<(), RecordFault>
    requires image { IfSome (D.image disk.old) (λ image. IsOpenedAs image index.now.opening) }

    // what it adds
    ensures key { aux.new.key ≡ aux.old.key }
    ensures turns { OnOk result (AreTurnsIn name_count (D.image disk.old) index.now.opening aux.old.key aux.old.turns aux.new.turns) }

    // what it reads, and where a column is damaged
    ensures takes { IfSome (D.image disk.old) (λ image. TakesColumns index.now.opening (all_node_columns index.now.opening) (D.taken disk.old) (D.taken disk.new) result) }
    ensures damage { IfSome (D.image disk.old) (λ image. TellsValueDamage name_count index.now.opening image result) }

    // what it leaves, and why a read failed
    ensures reads { ReadsRecords D.Disk disk.old disk.new result }
{
    let total = list_total(index);
    let mut list = 0;
    while list < total {
        let events = list_values(alloc, index, disk, name_count, list)?;
        aux.reserve(events.len())?;
        aux.apply(&events);
        list += 1;
    }
    Ok(())
}

/// An index of the values of a key over the events of all lists, in a history with so many names, and then the recent
/// ones: the column of node attributes of each list is read once, by rising number, where it has a byte, and no more than
/// one column is held at a time.
///
/// `Disk` where a read failed, `Damaged` with the first of these columns that is in no spelling or has an event outside the
/// times of its list, and `Memory`.
pub fn read_values<D: Disk>(
    alloc: Global,
    index: &Index,
    disk: &mut D,
    name_count: u32,
    recent: &[Event],
    key: u32,
) -> Result<Aux, RecordFault>
    requires image { IfSome (D.image disk.old) (λ image. IsOpenedAs image index.now.opening) }

    // what it gives
    ensures key { IfOk result (λ aux. aux.key ≡ key) }
    ensures values { IfOk result (λ aux. IfSome (D.image disk.old) (λ image. SaysValuesOf name_count image index.now.opening recent.now aux)) }

    // what it reads, and where a column is damaged
    ensures takes { IfSome (D.image disk.old) (λ image. TakesColumns index.now.opening (all_node_columns index.now.opening) (D.taken disk.old) (D.taken disk.new) result) }
    ensures damage { IfSome (D.image disk.old) (λ image. TellsValueDamage name_count index.now.opening image result) }

    // what it leaves, and why a read failed
    ensures reads { ReadsRecords D.Disk disk.old disk.new result }
{
    let mut aux = Aux::new(alloc, key);
    push_values(alloc, index, disk, name_count, &mut aux)?;
    aux.reserve(recent.len())?;
    aux.apply(recent);
    aux.tidy();
    Ok(aux)
}
