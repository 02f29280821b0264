//! What a batch needs is made, and its segment is put into the file.

ghost use Rattle.std.specs.Prelude.{◌≡◌, ◌≤◌, Some, take, IfOk, IfErr, IfSome, IsErrOf};
ghost use Rattle.dg_append.specs.AddedBatches.{left_behind};
ghost use Rattle.dg_append.specs.BatchSegments.{IsNext, StopsSegment, TakesSinglesOver};
ghost use Rattle.dg_append.specs.DiskLeft.{LeavesDisk};
ghost use Rattle.dg_append.specs.KeptBatches.{GainsNextOrNot, KeepsBatch, MakesBatch, PassesBatch, StaysBehind, StopsBatch};
ghost use Rattle.dg_append.specs.Overlays.{SameOverlay, pool_in};
ghost use Rattle.dg_disk.specs.Calls.{Fails, ReadsDisk};
ghost use Rattle.dg_file.specs.Images.{IsOpenedAs};
ghost use Rattle.dg_history.specs.declared.limits.TheConstants.{FILE_BYTES_MAX};
ghost use Rattle.dg_stored.specs.StoredHistory.{IsHeldBy};

use crate::batch_segment::make_segment;
use crate::fault::BatchFault;
use crate::nets::{Nets, make_nets, pass_batch};
use crate::next_batch::NextBatch;
use crate::recent::recent_behind;
use crate::segment::keep_segment;
use dg_disk::Disk;
use dg_file::Index;
use dg_graph::Event;
use dg_pool::Pool;
use dg_segment::Segment;
use std::alloc::Global;
use std::boxed::Box;
use std::thread::Threads;

/// What a batch needs, all of it made before the first write.
#[derive(Drop)]
struct MadeBatch {
    /// The segment of the batch.
    segment: Segment,
    /// The events behind the last closed list, once the batch is there, where it closes one.
    left: Option<Vec<Event>>,
    /// The nets of the batch, where there is a pool.
    nets: Option<Nets>,
}

// What the batch needs behind the index; the arguments are those of `make_segment`, and the pool. No graph changes.
fn make_batch<R: Threads, D: Disk>(
    rt: &R,
    alloc: Global,
    index: &Index,
    next: &NextBatch,
    pool: &mut Option<Box<Pool>>,
    disk: &mut D,
) -> Result<MadeBatch, BatchFault>
    requires image { IfSome (D.image disk.old) (λ image. IsOpenedAs image index.now.opening) }
    requires next { IsNext index.now.opening next.now next.now.current.now.graph }
    ensures made { IfOk result (MakesBatch (D.image disk.old) index.now.opening next.now (pool_in pool.new)) }

    // the bytes read
    ensures most { TakesSinglesOver (D.image disk.old) index.now.opening next.now next.now.current.now.graph (D.taken disk.old) (D.taken disk.new) }

    // why it is not made
    ensures fails { IfErr result (StopsSegment (D.image disk.old) index.now.opening next.now next.now.current.now.graph) }
    ensures cause { IsErrOf result BatchFault.Read → Fails D.Disk disk.old disk.new }

    // what it leaves
    ensures graphs { SameOverlay (pool_in pool.old) (pool_in pool.new) }
    ensures disk { ReadsDisk D.Disk disk.old disk.new }
{
    let left = recent_behind(alloc, index, next.recent, next.events)?;
    let segment = make_segment(rt, alloc, index, next, disk)?;
    // Made only now, so that they take no memory while the segment is made.
    let nets = make_nets(alloc, next.events, pool)?;
    Ok(MadeBatch {
        segment,
        left,
        nets,
    })
}

/// Puts the batch into the file, which may have `limit` bytes in use, behind the index, and takes the current graph of
/// the pool, where there is one, on by it. It gives the events behind the last closed list, once the batch is there,
/// where it closes one. All memory is taken before the first write.
///
/// `FileFull` with the bytes that would be in use, where they are more than `limit`; `Damaged` and `Read` where the
/// older children cannot be read; `Memory` for want of memory; then the index is as it was. `Store` where the disk
/// failed. After any fault no graph of the pool has changed.
pub(crate) fn keep_batch<R: Threads, D: Disk>(
    rt: &R,
    alloc: Global,
    limit: u64,
    index: &mut Index,
    next: &NextBatch,
    pool: &mut Option<Box<Pool>>,
    disk: &mut D,
) -> Result<Option<Vec<Event>>, BatchFault>
    requires limit { limit ≤ FILE_BYTES_MAX }
    requires image { IfSome (D.image disk.old) (IsHeldBy (Some index.old.opening) (take next.now.known next.now.names.now)) }
    requires next { IsNext index.old.opening next.now next.now.current.now.graph }

    // the batch in the file and in memory
    ensures kept { IfOk result (λ _. KeepsBatch D.Disk limit index.old.opening index.new.opening next.now next.now.current.now.graph disk.old disk.new) }
    ensures passed { IfOk result (λ left. PassesBatch index.old.opening next.now (left_behind left next.now.recent.now next.now.events.now) (pool_in pool.old) (pool_in pool.new)) }

    // the bytes read
    ensures most { TakesSinglesOver (D.image disk.old) index.old.opening next.now next.now.current.now.graph (D.taken disk.old) (D.taken disk.new) }

    // why it is not kept
    ensures fails { IfErr result (StopsBatch limit index.old.opening next.now next.now.current.now.graph (D.image disk.old) (D.image disk.new)) }
    ensures back { IfErr result (λ fault. StaysBehind fault index.old.opening index.new.opening (pool_in pool.old) (pool_in pool.new)) }

    // what it leaves of the disk, and what a crash leaves
    ensures disk { LeavesDisk D.Disk (GainsNextOrNot index.old.opening next.now next.now.current.now.graph) disk.old disk.new result }
{
    let made = make_batch(rt, alloc, index, next, pool, disk)?;
    keep_segment(index, disk, made.segment, limit)?;
    pass_batch(pool, &made.nets);
    Ok(made.left)
}
