//! The messages of instants.
ghost use Rattle.std.specs.Prelude.{◌≡◌, [], IfOk, IfSome, OnOk, length};
ghost use Rattle.std.specs.List.{All};
ghost use Rattle.dg_file.specs.Images.{IsOpenedAs};
ghost use Rattle.dg_messages.specs.Calls.{TakesHeard, TellsMessageDamage};
ghost use Rattle.dg_messages.specs.Collected.{AreCollected, AreHeardIn};
ghost use Rattle.dg_messages.specs.Once.{each_once, sets_for};
ghost use Rattle.dg_messages.specs.Told.{AreToldIn};
ghost use Rattle.dg_records.specs.Calls.{ReadsRecords};
ghost use Rattle.dg_records.specs.EventNames.{EventNamesAreThere};
ghost use Rattle.dg_retrieval.specs.NamesThere.{NamesAreThere};

use crate::collected::push_all;
use crate::once::each_once;
use crate::sets::sets_of;
use dg_disk::Disk;
use dg_file::Index;
use dg_graph::{Column, Element, Event};
use dg_heard::{next_heard, read_column};
use dg_records::RecordFault;
use dg_set::Set;
use std::alloc::{AllocError, Global};

// A list for each instant, with nothing in it.
fn empty_lists(alloc: Global, times: &[u64]) -> Result<Vec<Vec<Element>>, AllocError>
    ensures { IfOk result (λ lists. AreCollected [] times.now lists.items) }
{
    let mut lists = Vec::with_capacity(alloc, times.len())?;
    for _ in times {
        lists.push(Vec::new(alloc))?;
    }
    Ok(lists)
}

// Collects the messages of the instants from the columns that are heard for them.
//
// `Disk` where a read failed, `Damaged` with the first list whose column is in no spelling, and `Memory`.
fn push_heard<D: Disk>(
    alloc: Global,
    index: &Index,
    disk: &mut D,
    name_count: u32,
    times: &[u64],
    lists: &mut [Vec<Element>],
) -> Result<(), RecordFault>
    requires image { IfSome (D.image disk.old) (λ image. IsOpenedAs image index.now.opening) }
    requires empty { AreCollected [] times.now lists.old }

    // what it collects
    ensures heard { OnOk result (AreHeardIn name_count (D.image disk.old) index.now.opening times.now lists.new) }

    // what it reads, and where a column is damaged
    ensures takes { IfSome (D.image disk.old) (λ image. TakesHeard index.now.opening times.now (D.taken disk.old) (D.taken disk.new) result) }
    ensures damage { IfSome (D.image disk.old) (λ image. TellsMessageDamage name_count index.now.opening times.now image result) }

    // what it leaves, and why a read failed
    ensures reads { ReadsRecords D.Disk disk.old disk.new result }
{
    index.facts();
    let mut from = 0;
    while let Some(list) = next_heard(index, from, times) {
        let events = read_column(alloc, index, disk, name_count, list, Column::Transient)?;
        push_all(lists, &events, times)?;
        from = list + 1;
    }
    Ok(())
}

/// For each instant the messages of exactly it, in a history with so many names: those of the lists between whose times
/// one of the instants lies, and of the recent events. The column of messages of each of these lists is read once, by
/// rising number, where it has a byte; nothing else is read. Each event that is read, and each recent one, is compared to
/// each instant, and the messages of an instant are sorted.
///
/// `Disk` where a read failed, `Damaged` with the first list whose column is in no spelling, and `Memory`.
pub fn messages<D: Disk>(
    alloc: Global,
    index: &Index,
    disk: &mut D,
    name_count: u32,
    recent: &[Event],
    times: &[u64],
) -> Result<Vec<Set>, RecordFault>
    requires image { IfSome (D.image disk.old) (λ image. IsOpenedAs image index.now.opening) }

    // what it gives
    ensures told { IfOk result (λ sets. IfSome (D.image disk.old) (λ image. AreToldIn name_count image index.now.opening recent.now times.now sets.items)) }
    ensures count { IfOk result (λ sets. length sets.items ≡ length times.now) }
    ensures named { IfOk result (λ sets. EventNamesAreThere name_count recent.now → All (NamesAreThere name_count) sets.items) }

    // what it reads, and where a column is damaged
    ensures takes { IfSome (D.image disk.old) (λ image. TakesHeard index.now.opening times.now (D.taken disk.old) (D.taken disk.new) result) }
    ensures damage { IfSome (D.image disk.old) (λ image. TellsMessageDamage name_count index.now.opening times.now image result) }

    // what it leaves, and why a read failed
    ensures reads { ReadsRecords D.Disk disk.old disk.new result }
{
    let mut lists = empty_lists(alloc, times)?;
    push_heard(alloc, index, disk, name_count, times, &mut lists)?;
    push_all(&mut lists, recent, times)?;
    Ok(sets_of(alloc, lists)?)
}

/// What is told at instants, each of which comes once: a set for each of them.
#[derive(Drop)]
pub(crate) struct Heard {
    pub instants: Vec<u64>,
    pub sets: Vec<Set>,
}

/// The messages of the instants as `messages` has them, but of an instant that is repeated one set.
///
/// `Disk` where a read failed, `Damaged` with the first list whose column is in no spelling, and `Memory`.
pub(crate) fn messages_once<D: Disk>(
    alloc: Global,
    index: &Index,
    disk: &mut D,
    name_count: u32,
    recent: &[Event],
    times: &[u64],
) -> Result<Heard, RecordFault>
    requires image { IfSome (D.image disk.old) (λ image. IsOpenedAs image index.now.opening) }

    // what it gives
    ensures instants { IfOk result (λ h. h.instants.items ≡ each_once times.now) }
    ensures count { IfOk result (λ h. length h.sets.items ≡ length h.instants.items) }
    ensures told { IfOk result (λ h. IfSome (D.image disk.old) (λ image. AreToldIn name_count image index.now.opening recent.now times.now (sets_for h.instants.items h.sets.items times.now))) }
    ensures named { IfOk result (λ h. EventNamesAreThere name_count recent.now → All (NamesAreThere name_count) (sets_for h.instants.items h.sets.items times.now)) }

    // what it reads, and where a column is damaged
    ensures takes { IfSome (D.image disk.old) (λ image. TakesHeard index.now.opening times.now (D.taken disk.old) (D.taken disk.new) result) }
    ensures damage { IfSome (D.image disk.old) (λ image. TellsMessageDamage name_count index.now.opening times.now image result) }

    // what it leaves, and why a read failed
    ensures reads { ReadsRecords D.Disk disk.old disk.new result }
{
    let instants = each_once(alloc, times)?;
    let sets = messages(alloc, index, disk, name_count, recent, &instants)?;
    Ok(Heard { instants, sets })
}
