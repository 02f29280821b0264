//! Adding the next batch to a history: in the file, and in memory.

ghost use Rattle.std.specs.Prelude.{◌≤◌, IfOk, IfErr, IfSome, take};
ghost use Rattle.dg_append.specs.AddedBatches.{AddsBatch, AddsBatchOrNot, FailsBatch, IsBack, MayAdd, TakesBatch};
ghost use Rattle.dg_append.specs.DiskLeft.{LeavesDisk};
ghost use Rattle.dg_append.specs.KeptBatches.{GivesBack};
ghost use Rattle.dg_append.specs.LiveHistories.{IsLiveHistory};
ghost use Rattle.dg_history.specs.declared.limits.TheConstants.{FILE_BYTES_MAX};
ghost use Rattle.dg_stored.specs.StoredHistory.{IsHeldBy, index_opening};

use crate::batch_commit::keep_batch;
use crate::completion::complete;
use crate::fault::BatchFault;
use crate::front::Front;
use crate::live::Live;
use crate::next_batch::NextBatch;
use crate::recent::take_recent_on;
use crate::segment::last_instant;
use dg_disk::Disk;
use dg_graph::{Change, Event};
use std::alloc::Global;
use std::thread::Threads;

/// A batch that is to be added to a history, which has its names already.
#[derive(Drop)]
pub struct Batch {
    /// How many names the history had before those of the batch.
    pub known: u32,
    /// How far the changes of its lines are kept.
    pub front: Front,
    /// The changes that are kept.
    pub changes: Vec<Change>,
}

/// What was added to a history.
#[derive(Drop)]
pub struct AddedBatch {
    /// The events of the batch.
    pub events: Vec<Event>,
    /// How many events the history has with the batch.
    pub total: u64,
    /// The time of the last event.
    pub last: u64,
}

// Takes back what the batch has left in memory: its names and its events. Where a write or a sync failed all is
// forgotten, since what the file holds is not known.
fn give_back(alloc: Global, known: u32, fault: BatchFault, live: &mut Live)
    ensures { GivesBack fault known live.old live.new }
{
    if matches!(fault, BatchFault::Store) {
        live.forget(alloc);
    } else {
        live.history.now.abandon();
        live.history.names.cut(known);
    }
}

/// Adds the batch to the history, and takes the current graph of the pool, where there is one, on with it: no other graph
/// changes. The file may have `limit` bytes in use. Where the batch completes an interior node with older children, the
/// records that lead to them are read first, in groups of 32, each by one tree over the records alone. All memory is taken
/// before the first write. A crash at any moment leaves the history without the batch or with it.
///
/// `BatchFault::BadChange` for the least line that is refused, and behind it `BatchFault::OldFormat` where a line is a
/// message and the file is in its first form, both with nothing read; `BatchFault::FileFull` with the bytes that would be
/// in use, where they are more than `limit`; `BatchFault::Damaged`, `BatchFault::Read` where the older children cannot
/// be read; `BatchFault::Memory` for want of memory: then history and pool are as they were, with the names that there
/// were before the batch. `BatchFault::Store` where a write or a sync failed: what the file holds is not known then, so
/// nothing of it is kept, and no graph.
pub fn add_batch<R: Threads, D: Disk>(
    rt: &R,
    alloc: Global,
    limit: u64,
    batch: Batch,
    live: &mut Live,
    disk: &mut D,
) -> Result<AddedBatch, BatchFault>
    requires limit { limit ≤ FILE_BYTES_MAX }
    requires may { MayAdd batch live.old }
    requires image { IfSome (D.image disk.old) (IsHeldBy (index_opening live.old.history.index) (take batch.known live.old.history.names)) }

    // what is added, or why nothing is
    ensures adds { IfOk result (λ added. IfSome (index_opening live.old.history.index) (λ o.
        AddsBatch o limit batch live.old live.new (D.image disk.old) (D.image disk.new) added)) }
    ensures fails { IfErr result (λ fault. IfSome (index_opening live.old.history.index) (λ o.
        FailsBatch o limit batch live.old.history (D.image disk.old) (D.image disk.new) fault)) }
    ensures back { IfErr result (λ fault. IsBack fault batch.known live.old live.new) }
    ensures live { IsLiveHistory live.new }

    // the bytes read
    ensures reads { IfSome (index_opening live.old.history.index) (λ o.
        TakesBatch o batch live.old.history (D.image disk.old) result (D.taken disk.old) (D.taken disk.new)) }

    // why it fails, what it leaves of the disk, and what a crash leaves
    ensures disk { LeavesDisk D.Disk (AddsBatchOrNot batch live.old.history) disk.old disk.new result }
{
    let known = batch.known;
    let Live { history, pool } = live;
    let Some(index) = &mut history.index else {
        unreachable!()
    };
    index.facts();
    history.now.facts();
    // The changes are dropped with this, and the events held where they are pending: one copy of the batch.
    let top = match complete(alloc, index, &mut history.now, &mut history.recent, batch) {
        Ok(top) => top,
        Err(fault) => {
            give_back(alloc, known, fault, live);
            return Err(fault);
        }
    };
    let events = history.now.pending();
    let next = NextBatch {
        known,
        names: &history.names,
        recent: &history.recent,
        current: &history.now,
        top: &top,
        events,
    };
    match keep_batch(rt, alloc, limit, index, &next, pool, disk) {
        Ok(left) => {
            take_recent_on(&mut history.recent, left, events);
            let events = history.now.commit();
            Ok(AddedBatch {
                total: index.events_len(),
                last: last_instant(&events),
                events,
            })
        }
        Err(fault) => {
            give_back(alloc, known, fault, live);
            Err(fault)
        }
    }
}
