//! Adding a batch to the history of a session, under the graphs of its handles.

ghost use Rattle.std.specs.Prelude.{◌≡◌, ◌≤◌, ◌<◌, true, false, IfErr, IfOk, IfSome, take};
ghost use Rattle.dg_append.specs.AddedBatches.{AddsBatch, AddsBatchOrNot, FailsBatch, IsBack, MayAdd, TakesBatch};
ghost use Rattle.dg_append.specs.DiskLeft.{LeavesDisk};
ghost use Rattle.dg_batch.specs.HandlesStay.{HandlesStay};
ghost use Rattle.dg_batch.specs.Held.{HoldsHandles, IsHeld};
ghost use Rattle.dg_history.specs.declared.limits.TheConstants.{FILE_BYTES_MAX};
ghost use Rattle.dg_stored.specs.StoredHistory.{IsHeldBy, index_opening};

use crate::held::Held;
use dg_append::{AddedBatch, Batch, BatchFault, add_batch};
use dg_disk::Disk;
use dg_handles::law_tie_is_kept;
use dg_stored::StoredHistory;
use std::alloc::Global;
use std::thread::Threads;

/// Adds the batch to the history, and takes the current graph of the pool, where there is one, past its events. No handle's
/// graph changes.
/// Where the disk failed while the batch was added, what the file holds is not known, so the history, the handles and
/// their graphs are forgotten, and with them the adjacencies that are kept.
///
/// The faults are those of `add_batch`.
pub fn add_changes<R: Threads, D: Disk>(
    rt: &R,
    alloc: Global,
    limit: u64,
    batch: Batch,
    held: &mut Held,
    disk: &mut D,
) -> Result<AddedBatch, BatchFault>
    requires limit { limit ≤ FILE_BYTES_MAX }
    requires may { MayAdd batch held.old.live }
    requires handles { HoldsHandles batch.known held.old }
    requires image { IfSome (D.image disk.old) (λ image. IsHeldBy (index_opening held.old.live.history.index) (take batch.known held.old.live.history.names) image) }

    // what is added, or why nothing is
    ensures adds { IfOk result (λ added. IfSome (index_opening held.old.live.history.index) (λ o.
        AddsBatch o limit batch held.old.live held.new.live (D.image disk.old) (D.image disk.new) added)) }
    ensures fails { IfErr result (λ fault. IfSome (index_opening held.old.live.history.index) (λ o.
        FailsBatch o limit batch held.old.live.history (D.image disk.old) (D.image disk.new) fault)) }
    ensures back { IfErr result (λ fault. IsBack fault batch.known held.old.live held.new.live) }
    ensures handles { HandlesStay result held.old.handles held.new.handles }
    ensures held { IsHeld held.new }

    // the bytes read
    ensures reads { IfSome (index_opening held.old.live.history.index) (λ o.
        TakesBatch o batch held.old.live.history (D.image disk.old) result (D.taken disk.old) (D.taken disk.new)) }

    // why it fails, what it leaves of the disk, and what a crash leaves
    ensures disk { LeavesDisk D.Disk (AddsBatchOrNot batch held.old.live.history) disk.old disk.new result }
{
    law_tie_is_kept();
    have_lists(&held.live.history);
    match add_batch(rt, alloc, limit, batch, &mut held.live, disk) {
        Ok(added) => Ok(added),
        Err(fault) => {
            if is_lost(fault) {
                held.handles.clear();
                held.adjacency.forget();
                return Err(fault);
            }
            Err(fault)
        }
    }
}

// Whether what the file holds is not known after the fault.
fn is_lost(fault: BatchFault) -> bool
    ensures lost { result ≡ true → fault ≡ BatchFault.Store }
    ensures kept { result ≡ false → fault ≡ BatchFault.Store → ⊥ }
{
    matches!(fault, BatchFault::Store)
}

// The lists of an index have events. Does nothing.
fn have_lists(history: &StoredHistory)
    ensures { IfSome (index_opening history.entry.now.index) (λ o. 0 < o.params.l) }
{
    if let Some(index) = &history.index {
        index.facts();
    }
}
