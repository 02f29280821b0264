//! Reading the lists of an index, one behind another.

ghost use Rattle.std.specs.Prelude.{◌≡◌, ◌+◌, ◌*◌, ◌<◌, [], IfErr, IfSome, IsErrOf, Ok, OnOk, length};
ghost use Rattle.dg_disk.specs.Calls.{Fails, ReadsDisk};
ghost use Rattle.dg_records.specs.ColumnReads.{TakesAtMost};
ghost use Rattle.dg_history.specs.declared.node.Key.TheVariants as key;
ghost use Rattle.dg_index.specs.IndexRecords.{lists_due};
ghost use Rattle.dg_index.specs.OpenedIndex.{entry_at, event_total, opening, total};
ghost use Rattle.dg_sound.specs.OwnEvents.{have_ends, list_total, listed_events, with_list};
ghost use Rattle.dg_start.specs.EventSources.{WhereTold};
ghost use Rattle.dg_verify.specs.EventTests.{IsRead, IsStopBehind, tested};
ghost use Rattle.dg_verify.specs.RecordBytes.{columns_bytes};
ghost use Rattle.dg_verify.specs.Verification.{opened_with};

use crate::own_events::OwnEvents;
use crate::records::read_events;
use crate::stop::Stop;
use crate::times::are_ends;
use dg_catalogue::leaves;
use dg_disk::Disk;
use dg_file::Index;
use dg_graph::{Column, Event};
use dg_history::Key;
use dg_names::Names;
use std::alloc::Global;

// Whether the index tells of the list the times of the first and of the last of these events.
fn have_ends(index: &Index, number: u32, events: &[Event]) -> bool
    ensures { result ≡ have_ends (entry_at index.now.opening (key.List number)).ends events.now }
{
    let Some(entry) = index.entry(Key::List(number)) else {
        return false;
    };
    match entry.ends {
        Some(ends) => are_ends(ends, events),
        None => false,
    }
}

// Reads the list of this number behind the events that were read.
fn add_list<D: Disk>(
    alloc: Global,
    index: &Index,
    disk: &mut D,
    names: &Names,
    own: &mut OwnEvents,
    number: u32,
) -> Result<(), Stop>
    requires closed { number < list_total index.now.opening }
    requires image { IfSome (D.image disk.old) (λ image. opening image ≡ Ok (opened_with index.now.opening names.now)) }
    requires read { IsRead (length names.now) own.old }

    // the events
    ensures listed { OnOk result (WhereTold (D.image disk.old)
        (λ image. tested names.now own.old (with_list image (opened_with index.now.opening names.now) own.old.events.items number) ≡ tested names.now own.new (Ok own.new.events.items))) }
    ensures read { OnOk result (IsRead (length names.now) own.new) }
    ensures many { OnOk result (length own.new.events.items ≡ length own.old.events.items + index.now.opening.params.l) }

    // why there are none
    ensures stopped { IfErr result (λ stop. WhereTold (D.image disk.old)
        (λ image. IsStopBehind names.now own.new stop (tested names.now own.old (with_list image (opened_with index.now.opening names.now) own.old.events.items number)))) }
    ensures cause { IsErrOf result Stop.Disk → Fails D.Disk disk.old disk.new }

    // what it reads, and what it leaves
    ensures takes { WhereTold (D.image disk.old) (λ image. TakesAtMost (total (entry_at index.now.opening (key.List number)).lengths) (D.taken disk.old) (D.taken disk.new)) }
    ensures disk { ReadsDisk D.Disk disk.old disk.new }
{
    index.facts();
    let key = Key::List(number);
    let size = u64::from(index.params().l);
    let events = read_events(alloc, index, disk, names, key, size)?;
    own.add(key, &events)?;
    if !have_ends(index, number, &events) {
        return Err(Stop::Wrong(key, Column::Structure));
    }
    Ok(())
}

/// Reads the events of all lists. Whether they may follow one another is not tested.
///
/// `Stop::Wrong` for the first list that is not right by itself: for its first column that no events are spelled as,
/// or for structure where the columns do not come together to the events of a list, or where the list's times are
/// others; the events of the lists before it are read. `Stop::Disk` where the disk failed, `Stop::Memory` for want of
/// memory.
pub fn add_lists<D: Disk>(
    alloc: Global,
    index: &Index,
    disk: &mut D,
    names: &Names,
    own: &mut OwnEvents,
) -> Result<(), Stop>
    requires none { own.old.events.items ≡ [] }
    requires image { IfSome (D.image disk.old) (λ image. opening image ≡ Ok (opened_with index.now.opening names.now)) }
    requires read { IsRead (length names.now) own.old }

    // the events
    ensures listed { OnOk result (WhereTold (D.image disk.old)
        (λ image. listed_events image (opened_with index.now.opening names.now) ≡ tested names.now own.new (Ok own.new.events.items))) }
    ensures read { OnOk result (IsRead (length names.now) own.new) }
    ensures many { OnOk result (length own.new.events.items ≡ list_total index.now.opening * index.now.opening.params.l) }

    // why there are none
    ensures stopped { IfErr result (λ stop. WhereTold (D.image disk.old)
        (λ image. IsStopBehind names.now own.new stop (listed_events image (opened_with index.now.opening names.now)))) }
    ensures cause { IsErrOf result Stop.Disk → Fails D.Disk disk.old disk.new }

    // what it reads, and what it leaves
    ensures takes { WhereTold (D.image disk.old) (λ image. TakesAtMost (columns_bytes index.now.opening (lists_due index.now.opening.params 0 (event_total index.now.opening.batches))) (D.taken disk.old) (D.taken disk.new)) }
    ensures disk { ReadsDisk D.Disk disk.old disk.new }
{
    index.facts();
    let total = leaves(index.params(), index.events_len());
    for number in 0..total {
        add_list(alloc, index, disk, names, own, number)?;
    }
    Ok(())
}
