//! Opening an index file.

ghost use Rattle.std.specs.Prelude.{◌≡◌, ◌⊎◌, [], Ok, Err, Option, None, Some, IfErr, IfOk, IfSome, IsErrOf, MatchOption, OnErr, OnOk, length};
ghost use Rattle.dg_disk.specs.Calls.{Fails, IsOnDevice, ReadsDisk, SyncsDisk};
ghost use Rattle.dg_disk.specs.Counts.{raised_by};
ghost use Rattle.dg_file.specs.Images.{taken_after};
ghost use Rattle.dg_file.specs.Index.{opening_bytes};
ghost use Rattle.dg_file.specs.OpeningBytes.{TakesUpToOpening, blank_bytes};
ghost use Rattle.dg_history.specs.History.{History};
ghost use Rattle.dg_index.specs.ImageOfHistory.{StandsAs};
ghost use Rattle.dg_index.specs.IndexGrowth.{name_total};
ghost use Rattle.dg_index.specs.OpenedIndex.{No_index, opening};
ghost use Rattle.dg_start.specs.Calls.{IsCurrent, IsOpenedFile, TakesAlongPlan, TakesStart, current_bytes};
ghost use Rattle.dg_start.specs.SessionStart.{RefusesStart};
ghost use Rattle.dg_stored.specs.StoredHistory.{index_opening};

use crate::current_graph::current_graph;
use crate::event_source::recent_sources;
use crate::fault::StartFault;
use crate::last_leaf::{first_recent, last_set};
use crate::laws::law_images_start_as_they_stand;
use crate::source_events::read_sources;
use dg_current::Now;
use dg_disk::Disk;
use dg_file::{Index, ReopenFault};
use dg_graph::Event;
use dg_names::Names;
use dg_seed::Seed;
use dg_stored::StoredHistory;
use std::alloc::Global;
use std::thread::Threads;

// The current graph and the recent events.
struct Current {
    now: Now,
    recent: Vec<Event>,
}

// The current graph and the recent events of an index with these names. The current graph keeps the graph behind the last
// closed list.
fn read_current<R: Threads + Sync, D: Disk>(
    rt: &R,
    alloc: Global,
    index: &Index,
    disk: &mut D,
    names: &Names,
) -> Result<Current, StartFault>
    requires image { IfSome (D.image disk.old) (λ image. opening image ≡ Ok (record { index = index.now.opening; names = names.now })) }

    // the graph and the events, and over an image of a history the bytes read
    ensures done { IfOk result (λ current. IsCurrent (D.image disk.old) index.now.opening names.now
        current.now current.recent.items) }
    ensures takes { IfSome (D.image disk.old) (λ image.
        TakesAlongPlan result (current_bytes index.now.opening) image index.now.opening (length names.now) (D.taken disk.old) (D.taken disk.new)) }

    // why there are none
    ensures refused { IfErr result (λ fault. IfSome (D.image disk.old) (λ image. RefusesStart fault image)) }
    ensures cause { IsErrOf result StartFault.Disk → Fails D.Disk disk.old disk.new }

    // what it leaves
    ensures disk { ReadsDisk D.Disk disk.old disk.new }
{
    index.facts();
    let sources = recent_sources(alloc, index)?;
    let recent = read_sources(alloc, index, disk, names.len(), &sources)?;
    let set = last_set(rt, alloc, index, disk, names.len())?;
    let now = current_graph(alloc, names, set, first_recent(index), &sources, &recent)?;
    Ok(Current { now, recent })
}

// The index that the disk has, and none where there is no index. Fills `names` with the names of its batches.
fn reopen<D: Disk>(
    alloc: Global,
    disk: &mut D,
    names: &mut Names,
) -> Result<Option<Index>, StartFault>
    requires names { names.old ≡ [] }
    ensures opened { IfOk result (λ found. IfSome (D.image disk.old) (λ image.
        MatchOption found (opening image ≡ Err No_index) (λ index. opening image ≡ Ok (record { index = index.opening; names = names.new })))) }
    ensures counted_names { IfOk result (λ found. IfSome found (λ index. length names.new ≡ name_total index.opening.batches)) }

    // the bytes read
    ensures taken { IfOk result (λ found. IfSome found (λ index. D.taken disk.new ≡ raised_by (opening_bytes index.opening) (D.taken disk.old))) }
    ensures blank { IfOk result (λ found. found ≡ None → IfSome (D.image disk.old) (λ image. D.taken disk.new ≡ taken_after (blank_bytes image) (D.taken disk.old))) }
    ensures within { OnErr result (IfSome (D.image disk.old) (λ image. TakesUpToOpening image (D.taken disk.old) (D.taken disk.new))) }

    // why there is none
    ensures refused { IfErr result (λ fault. IfSome (D.image disk.old) (λ image. RefusesStart fault image)) }
    ensures cause { IsErrOf result StartFault.Disk → Fails D.Disk disk.old disk.new }

    // what it leaves
    ensures disk { SyncsDisk D.Disk disk.old disk.new }
    ensures settled { OnOk result (IsOnDevice D.Disk disk.new) }
{
    match Index::reopen(alloc, disk, names) {
        Ok(index) => Ok(Some(index)),
        Err(ReopenFault::Blank) => Ok(None),
        Err(ReopenFault::Foreign) => Err(StartFault::Foreign),
        Err(ReopenFault::Damaged(offset)) => Err(StartFault::Damaged(offset)),
        Err(ReopenFault::Disk) => Err(StartFault::Disk),
        Err(ReopenFault::Memory) => Err(StartFault::Memory),
    }
}

// Starts over an index with these names.
fn open_index<R: Threads + Sync, D: Disk>(
    rt: &R,
    alloc: Global,
    disk: &mut D,
    index: Index,
    names: Names,
) -> Result<StoredHistory, StartFault>
    requires image { IfSome (D.image disk.old) (λ image. opening image ≡ Ok (record { index = index.opening; names = names })) }
    requires counted_names { length names ≡ name_total index.opening.batches }

    // the history, and over an image of a history the bytes read
    ensures done { IfOk result (λ opened. IsOpenedFile (D.image disk.old) (D.image disk.new)
        (index_opening opened.index) opened.names opened.now opened.recent.items) }
    ensures takes { IfSome (D.image disk.old) (λ image.
        TakesAlongPlan result (current_bytes index.opening) image index.opening (length names) (D.taken disk.old) (D.taken disk.new)) }

    // why there is none
    ensures refused { IfErr result (λ fault. IfSome (D.image disk.old) (λ image. RefusesStart fault image)) }
    ensures cause { IsErrOf result StartFault.Disk → Fails D.Disk disk.old disk.new }

    // what it leaves
    ensures disk { ReadsDisk D.Disk disk.old disk.new }
{
    law_images_start_as_they_stand();
    let Current { now, recent } = read_current(rt, alloc, &index, disk, &names)?;
    Ok(StoredHistory {
        index: Some(index),
        names,
        now,
        recent,
    })
}

/// Opens the index over the disk, if there is one: reads its recent events, composes the records along the plan of
/// its last leaf, and takes the graph that they come to past the recent events, each of which some change comes to.
/// Nothing else is read. The current graph keeps the graph of the last leaf, which is
/// nowhere copied. Names and current graph hash with the seed.
///
/// In this order: `StartFault::Foreign` where the file is not one of an index, `StartFault::Damaged` with the offset
/// of the first segment that breaks a rule, `StartFault::BadRecord` for the first column of the recent pieces and
/// then of the plan that is in no spelling, or a piece whose columns do not come together, `StartFault::NotGraph`,
/// `StartFault::BadRecent` with the number of the first recent event that no change comes to or that is out of its
/// time; `StartFault::Disk` where the disk failed, `StartFault::Memory` for want of memory. Over an image of a history
/// a start that fails reads no more than one that does not; of a blank file the 18 bytes of a header are read where it
/// has as many, else none. After a start all that the disk has is on the device.
pub fn open<R: Threads + Sync, D: Disk>(
    rt: &R,
    alloc: Global,
    seed: Seed,
    disk: &mut D,
) -> Result<StoredHistory, StartFault>

    // the history, and over an image of a history or a blank one the bytes read
    ensures done { IfOk result (λ opened. IsOpenedFile (D.image disk.old) (D.image disk.new)
        (index_opening opened.index) opened.names opened.now opened.recent.items) }
    ensures takes { IfSome (D.image disk.old) (λ image. TakesStart result image (D.taken disk.old) (D.taken disk.new)) }

    // why there is none
    ensures refused { IfErr result (λ fault. IfSome (D.image disk.old) (λ image. RefusesStart fault image)) }
    ensures never { IfErr result (λ fault. IfSome (D.image disk.old) (λ image. (z : Option History) → StandsAs z image
        → (fault ≡ StartFault.Disk) ⊎ (fault ≡ StartFault.Memory))) }
    ensures cause { IsErrOf result StartFault.Disk → Fails D.Disk disk.old disk.new }

    // what it leaves
    ensures disk { SyncsDisk D.Disk disk.old disk.new }
    ensures settled { OnOk result (IsOnDevice D.Disk disk.new) }
{
    law_images_start_as_they_stand();
    let mut names = Names::new(alloc, seed);
    let Some(index) = reopen(alloc, disk, &mut names)? else {
        return Ok(StoredHistory::empty(alloc, seed));
    };
    let opened = open_index(rt, alloc, disk, index, names)?;
    Ok(opened)
}
