//! Making the segment of a batch from what is kept of a history and from the records of its older children.

ghost use Rattle.std.specs.Prelude.{◌≡◌, IfOk, IfErr, IfSome, IsErrOf};
ghost use Rattle.dg_append.specs.BatchSegments.{IsNext, MakesSegment, StopsSegment, TakesSinglesOver};
ghost use Rattle.dg_disk.specs.Calls.{Fails, ReadsDisk};
ghost use Rattle.dg_file.specs.Images.{IsOpenedAs};

use crate::fault::BatchFault;
use crate::next_batch::NextBatch;
use crate::older_steps::older_steps;
use crate::segment::segment_of;
use dg_disk::Disk;
use dg_file::Index;
use dg_segment::Segment;
use std::alloc::Global;
use std::thread::Threads;

/// The segment of the batch behind the index. The records that lead to the older children of the interior nodes that the
/// batch completes are read.
///
/// `Damaged` and `Read` where the older children cannot be read, or a due delta cannot be written; `Memory` for want
/// of memory.
pub(crate) fn make_segment<R: Threads, D: Disk>(
    rt: &R,
    alloc: Global,
    index: &Index,
    next: &NextBatch,
    disk: &mut D,
) -> Result<Segment, BatchFault>
    requires image { IfSome (D.image disk.old) (λ image. IsOpenedAs image index.now.opening) }
    requires next { IsNext index.now.opening next.now next.now.current.now.graph }
    ensures made { IfOk result (MakesSegment (D.image disk.old) index.now.opening next.now next.now.current.now.graph) }

    // the bytes read, over an image of a history: at most those of the single plans
    ensures most { TakesSinglesOver (D.image disk.old) index.now.opening next.now next.now.current.now.graph (D.taken disk.old) (D.taken disk.new) }

    // why it is not made
    ensures fails { IfErr result (StopsSegment (D.image disk.old) index.now.opening next.now next.now.current.now.graph) }
    ensures cause { IsErrOf result BatchFault.Read → Fails D.Disk disk.old disk.new }

    // what it leaves
    ensures disk { ReadsDisk D.Disk disk.old disk.new }
{
    let older = older_steps(rt, alloc, index, next, disk)?;
    segment_of(alloc, index, next, &older)
}
