//! The parts are written, one after another.
ghost use Rattle.std.specs.Prelude.{◌≡◌, ◌≤◌, ◌<◌, IfErr, IfSome, OnOk, length};
ghost use Rattle.dg_disk.specs.Calls.{IsOnDevice, UsesDisk};
ghost use Rattle.dg_file.specs.Images.{BothTold};
ghost use Rattle.dg_history.specs.declared.limits.TheConstants.{FILE_BYTES_MAX};
ghost use Rattle.dg_history.specs.LegalHistory.{IsLegal};
ghost use Rattle.dg_splitting.specs.Ends.{IsLeft, StandsWithin, StopsPart};
ghost use Rattle.dg_splitting.specs.Outs.{AreBlank, AreOnDevice, AreUsed, IsBlank};
ghost use Rattle.dg_splitting.specs.WholeHistory.{IsWhole, written_part};
ghost use Rattle.dg_splitting.specs.Written.{HoldParts, LeavesParts, StopsParts};

use crate::status::{SplitStatus, part_status};
use dg_disk::Disk;
use dg_graph::Event;
use dg_history::Params;
use dg_names::Names;
use dg_part_files::write_part;
use dg_seed::Seed;
use dg_split::events_of_part;
use std::alloc::Global;
use std::thread::Threads;

/// The most parts into which a history is split.
pub const PARTS_MAX: usize = 16;

/// A history that is split.
#[derive(Drop)]
pub(crate) struct Whole<'a> {
    /// Its parameters.
    pub(crate) params: Params,
    /// Its names.
    pub(crate) names: &'a Names,
    /// Its events.
    pub(crate) events: &'a [Event],
}

// Writes this part of so many to its out.
fn write_one<R: Threads, D: Disk>(
    rt: &R,
    alloc: Global,
    seed: Seed,
    limit: u64,
    whole: &Whole,
    parts: u32,
    part: u32,
    out: &mut D,
) -> Result<(), SplitStatus>
    requires limit { limit ≤ FILE_BYTES_MAX }
    requires whole { IsWhole whole.now.params whole.now.names.now whole.now.events.now }
    requires within { part < parts }
    requires blank { IsBlank D.Disk out.old }
    ensures written { OnOk result (IsLegal (written_part whole.now.params whole.now.names.now whole.now.events.now parts part)
        → IfSome (D.image out.new) (StandsWithin limit (written_part whole.now.params whole.now.names.now whole.now.events.now parts part))) }

    // why it is not written, and what is left then
    ensures stops { IfErr result (λ status. StopsPart D.Disk limit part whole.now.names.now (written_part whole.now.params whole.now.names.now whole.now.events.now parts part)
        status out.old out.new) }
    ensures front { IfErr result (λ status. IsLegal (written_part whole.now.params whole.now.names.now whole.now.events.now parts part)
        → BothTold (D.image out.old) (D.image out.new) (IsLeft (written_part whole.now.params whole.now.names.now whole.now.events.now parts part) status part part)) }

    // what it leaves of the disk
    ensures used { UsesDisk D.Disk out.old out.new }
    ensures settled { OnOk result (IsOnDevice D.Disk out.new) }
{
    let events = events_of_part(alloc, parts, part, whole.events)?;
    match write_part(
        rt,
        alloc,
        seed,
        limit,
        whole.params,
        whole.names,
        &events,
        out,
    ) {
        Ok(()) => Ok(()),
        Err(fault) => Err(part_status(part, fault)),
    }
}

/// Writes each part of the history to the out of its number. All outs are blank.
///
/// `SplitStatus::Full` with the first out whose next batch passes the limit, `SplitStatus::DiskFault` where a disk failed,
/// `SplitStatus::NoMemory` for want of memory, `SplitStatus::Refused` where the history is none, or an out is read back
/// otherwise than it was written. Then the outs hold the first batches of their parts, or nothing.
pub(crate) fn write_parts<R: Threads, D: Disk>(
    rt: &R,
    alloc: Global,
    seed: Seed,
    limit: u64,
    whole: &Whole,
    outs: &mut [D],
) -> Result<(), SplitStatus>
    requires limit { limit ≤ FILE_BYTES_MAX }
    requires whole { IsWhole whole.now.params whole.now.names.now whole.now.events.now }
    requires few { length outs.old ≤ PARTS_MAX }
    requires blank { AreBlank D.Disk outs.old }
    ensures written { OnOk result (HoldParts D.Disk limit whole.now.params whole.now.names.now whole.now.events.now outs.new) }

    // why not all are written, and what is left then
    ensures stops { IfErr result (λ status. StopsParts D.Disk limit whole.now.params whole.now.names.now whole.now.events.now status outs.old outs.new) }
    ensures fronts { IfErr result (λ status. LeavesParts D.Disk whole.now.params whole.now.names.now whole.now.events.now status outs.old outs.new) }

    // what it leaves of the disks
    ensures used { AreUsed D.Disk outs.old outs.new }
    ensures settled { OnOk result (AreOnDevice D.Disk outs.new) }
{
    let parts = outs.len() as u32;
    for part in 0..parts {
        write_one(
            rt,
            alloc,
            seed,
            limit,
            whole,
            parts,
            part,
            &mut outs[part as usize],
        )?;
    }
    Ok(())
}
