//! What comes in within a range of instants, read from the lists.
ghost use Rattle.std.specs.Prelude.{◌≡◌, ◌<◌, ◌≤◌, ◌-◌, ◌^◌, ◌+◌, IfOk, IfSome, OnOk};
ghost use Rattle.dg_file.specs.Images.{IsOpenedAs};
ghost use Rattle.dg_heard.specs.Heard.{list_total};
ghost use Rattle.dg_index.specs.Hierarchy.{numbers};
ghost use Rattle.dg_range.specs.Added.{ArePutIn, IsAddedIn, asked_columns, following, place_after, range_columns};
ghost use Rattle.dg_range.specs.ColumnRuns.{TakesColumns, TellsColumnDamage};
ghost use Rattle.dg_records.specs.Calls.{ReadsRecords};
ghost use Rattle.dg_records.specs.EventNames.{EventNamesAreThere};
ghost use Rattle.dg_retrieval.specs.NamesThere.{NamesAreThere};

use crate::lists::lists_between;
use dg_added::push_added;
use dg_disk::Disk;
use dg_event::{asks, column_of};
use dg_file::Index;
use dg_graph::{Column, Columns, Event};
use dg_heard::read_column;
use dg_records::RecordFault;
use dg_set::{Element, Set};
use std::alloc::Global;

// The asked column behind this one.
fn following(cols: Columns, column: Column) -> Option<Column>
    ensures { result ≡ following cols column }
{
    match column {
        Column::Structure if cols.nodes_attr => Some(Column::NodeAttr),
        Column::Structure | Column::NodeAttr if cols.edges_attr => Some(Column::EdgeAttr),
        Column::Structure | Column::NodeAttr | Column::EdgeAttr if cols.transient => {
            Some(Column::Transient)
        }
        _ => None,
    }
}

// The place that is read behind this column of this list.
fn place_behind(cols: Columns, list: u32, column: Column) -> (u32, Column)
    requires { list + 1 < 2 ^ 32 }
    ensures { result ≡ place_after list (following cols column) }
{
    match following(cols, column) {
        Some(next) => (list, next),
        None => (list + 1, Column::Structure),
    }
}

// Adds what the events that the asked columns of these lists spell put in within the range of instants.
//
// `Disk` where a read failed, `Damaged` with the first of these columns that is in no spelling, and `Memory`.
fn push_lists<D: Disk>(
    alloc: Global,
    index: &Index,
    disk: &mut D,
    name_count: u32,
    low: u32,
    high: u32,
    from: u64,
    until: u64,
    cols: Columns,
    put: &mut Vec<Element>,
) -> Result<(), RecordFault>
    requires ordered { low ≤ high }
    requires there { high ≤ list_total index.now.opening }
    requires image { IfSome (D.image disk.old) (λ image. IsOpenedAs image index.now.opening) }

    // what it adds
    ensures put { OnOk result (ArePutIn name_count (D.image disk.old) index.now.opening (asked_columns cols (numbers low (high - low))) from until put.old.items put.new.items) }

    // what it reads, and where a column is damaged
    ensures takes { IfSome (D.image disk.old) (λ image. TakesColumns index.now.opening (asked_columns cols (numbers low (high - low))) (D.taken disk.old) (D.taken disk.new) result) }
    ensures damage { IfSome (D.image disk.old) (λ image. TellsColumnDamage name_count index.now.opening (asked_columns cols (numbers low (high - low))) image result) }

    // what it leaves, and why a read failed
    ensures reads { ReadsRecords D.Disk disk.old disk.new result }
{
    let mut list = low;
    let mut column = Column::Structure;
    while list < high {
        let events = read_column(alloc, index, disk, name_count, list, column)?;
        push_added(put, &events, from, until)?;
        let next = place_behind(cols, list, column);
        list = next.0;
        column = next.1;
    }
    Ok(())
}

/// The elements that the events from the instant `from` on and before `until` add, with their messages, in the asked
/// columns, in a history with so many names: of the lists that may have such events, and of the recent events, which are in
/// no list. Of each of these lists the asked columns are read once, where they have a byte, by rising number of the list; no
/// more than one column is held at a time. One sort of what comes in.
///
/// `Disk` where a read failed, `Damaged` with the first of these columns that is in no spelling, and `Memory`.
pub fn read_added<D: Disk>(
    alloc: Global,
    index: &Index,
    disk: &mut D,
    name_count: u32,
    recent: &[Event],
    from: u64,
    until: u64,
    cols: Columns,
) -> Result<Set, RecordFault>
    requires image { IfSome (D.image disk.old) (λ image. IsOpenedAs image index.now.opening) }

    // what comes in
    ensures added { IfOk result (λ set. IfSome (D.image disk.old) (λ image. IsAddedIn name_count image index.now.opening recent.now from until cols set)) }
    ensures named { IfOk result (λ set. EventNamesAreThere name_count recent.now → NamesAreThere name_count set) }

    // what it reads, and where a column is damaged
    ensures takes { IfSome (D.image disk.old) (λ image. TakesColumns index.now.opening (range_columns index.now.opening from until cols) (D.taken disk.old) (D.taken disk.new) result) }
    ensures damage { IfSome (D.image disk.old) (λ image. TellsColumnDamage name_count index.now.opening (range_columns index.now.opening from until cols) image result) }

    // what it leaves, and why a read failed
    ensures reads { ReadsRecords D.Disk disk.old disk.new result }
{
    let lists = lists_between(index, from, until);
    let mut put = Vec::new(alloc);
    push_lists(
        alloc, index, disk, name_count, lists.0, lists.1, from, until, cols, &mut put,
    )?;
    push_added(&mut put, recent, from, until)?;
    put.retain(|element| asks(cols, column_of(element)));
    Ok(Set::from_unsorted(put))
}
