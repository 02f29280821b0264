//! The batches of a part, one after another behind a new index.

ghost use Rattle.std.specs.Prelude.{◌≡◌, ◌≤◌, ◌<◌, IfErr, IfOk, OnOk, length, map, take, drop};
ghost use Rattle.dg_append.specs.AddedBatches.{MayAdd};
ghost use Rattle.dg_append.specs.declared.front.Front.TheVariants.{Whole};
ghost use Rattle.dg_changes.specs.EventChanges.{change_of};
ghost use Rattle.dg_disk.specs.Calls.{IsOnDevice, StaysOnDevice, UsesDisk};
ghost use Rattle.dg_history.specs.declared.limits.TheConstants.{FILE_BYTES_MAX};
ghost use Rattle.dg_part_files.specs.Faults.{IsNoRefusal, of_batch};
ghost use Rattle.dg_part_files.specs.PartFaults.{StopsPart};
ghost use Rattle.dg_part_files.specs.WrittenParts.{IsAt, IsGoodPart, known_behind, written};
ghost use Rattle.dg_partition.specs.Cuts.{cut_of};

use crate::fault::PartFault;
use dg_append::{Batch, BatchFault, Front, Live, add_batch};
use dg_disk::Disk;
use dg_graph::Event;
use dg_history::{BATCH_LINES_MAX, Params};
use dg_names::Names;
use dg_split::{changes_of, next_cut};
use std::alloc::Global;
use std::thread::Threads;

/// What is written of a part.
#[derive(Drop)]
pub(crate) struct Part<'a> {
    /// The parameters of its index.
    pub(crate) params: Params,
    /// The names, which its first batch brings.
    pub(crate) names: &'a Names,
    /// Its events.
    pub(crate) events: &'a [Event],
}

// The same cause. No line was refused.
fn fault_of(fault: BatchFault) -> PartFault
    requires { IsNoRefusal fault }
    ensures { result ≡ of_batch fault }
{
    match fault {
        BatchFault::BadChange(_, _) | BatchFault::OldFormat => unreachable!(),
        BatchFault::FileFull(needed, _) => PartFault::Full(needed),
        BatchFault::Damaged(key, column) => PartFault::Damaged(key, column),
        BatchFault::Read | BatchFault::Store => PartFault::Disk,
        BatchFault::Memory => PartFault::Memory,
    }
}

// Writes the next batch, where so many events of the part are written: it has the most events with which it may end. The
// answer is how many events are written then.
fn add_next<R: Threads, D: Disk>(
    rt: &R,
    alloc: Global,
    limit: u64,
    part: &Part,
    done: usize,
    live: &mut Live,
    out: &mut D,
) -> Result<usize, PartFault>
    requires limit { limit ≤ FILE_BYTES_MAX }
    requires good { IsGoodPart part.now.params part.now.names.now part.now.events.now }
    requires at { IsAt limit part.now.params part.now.names.now part.now.events.now done live.old (D.image out.old) }
    requires left { done < length part.now.events.now }
    ensures at { IfOk result (λ next. IsAt limit part.now.params part.now.names.now part.now.events.now next live.new (D.image out.new)) }
    ensures more { IfOk result (λ next. done < next) }
    ensures within { IfOk result (λ next. next ≤ length part.now.events.now) }

    // why it is not written
    ensures stops { IfErr result (StopsPart D.Disk limit (written part.now.params part.now.names.now part.now.events.now) part.now.events.now out.old out.new) }

    // what it leaves of the disk
    ensures used { UsesDisk D.Disk out.old out.new }
    ensures settled { OnOk result (IsOnDevice D.Disk out.new) }
{
    let rest = &part.events[done..];
    let count = next_cut(rest);
    if count == 0 {
        return Err(PartFault::Crowded(done as u64 + u64::from(BATCH_LINES_MAX) + 1));
    }
    let batch = Batch {
        known: if done == 0 { 0 } else { part.names.len() },
        front: Front::Whole,
        changes: changes_of(alloc, &rest[..count])?,
    };
    match add_batch(rt, alloc, limit, batch, live, out) {
        Ok(_added) => Ok(done + count),
        Err(fault) => Err(fault_of(fault)),
    }
}

/// Writes all batches of the part behind its new index, beside which this is kept.
pub(crate) fn write_batches<R: Threads, D: Disk>(
    rt: &R,
    alloc: Global,
    limit: u64,
    part: &Part,
    live: &mut Live,
    out: &mut D,
) -> Result<(), PartFault>
    requires limit { limit ≤ FILE_BYTES_MAX }
    requires good { IsGoodPart part.now.params part.now.names.now part.now.events.now }
    requires at { IsAt limit part.now.params part.now.names.now part.now.events.now 0 live.old (D.image out.old) }
    ensures at { OnOk result (IsAt limit part.now.params part.now.names.now part.now.events.now (length part.now.events.now) live.new (D.image out.new)) }

    // why not all are written
    ensures stops { IfErr result (StopsPart D.Disk limit (written part.now.params part.now.names.now part.now.events.now) part.now.events.now out.old out.new) }

    // what it leaves of the disk
    ensures used { UsesDisk D.Disk out.old out.new }
    ensures settled { OnOk result (StaysOnDevice D.Disk out.old out.new) }
{
    let mut done = 0;
    while done < part.events.len() {
        done = add_next(rt, alloc, limit, part, done, live, out)?;
    }
    Ok(())
}
