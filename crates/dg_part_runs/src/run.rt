//! The run: the parts, and each reply before the next line is read.
ghost use Rattle.std.specs.Prelude.{◌≡◌, ◌≤◌, IsTrue, length};
ghost use Rattle.dg_machine.specs.MachineState.{IsWithin};
ghost use Rattle.dg_part_runs.specs.declared.start.TheConstants.{PARTS_MAX};
ghost use Rattle.dg_part_runs.specs.Disks.{SyncsAll};
ghost use Rattle.dg_part_runs.specs.PartsOutside.{outside_parts};
ghost use Rattle.dg_part_runs.specs.PartsPromised.{PartsPromised};
ghost use Rattle.dg_part_runs.specs.PartsStatuses.{status_of};

use crate::start::start_parts;
use crate::status::PartsStatus;
use dg_disk::Disk;
use dg_io::{Sink, Source};
use dg_machine::Limits;
use dg_partition::law_parts_make_the_whole_within_their_ranges;
use dg_seed::Seed;
use dg_turns::{Commands, End, answer_script};
use std::alloc::Global;
use std::thread::Threads;

/// Reads the parts of a history together: carries out the commands of the script one by one over the index files that the disks
/// hold, each reply before the next line is read. Tables hash with the seed, on which no reply depends. The files are read
/// alone. `specs/PartsPromised.antt` says field by field what it promises.
pub fn serve_parts<R: Threads + Sync, S: Source, K: Sink, D: Disk>(
    rt: &R,
    alloc: Global,
    seed: Seed,
    limits: Limits,
    source: &mut S,
    sink: &mut K,
    disks: &mut Vec<D>,
) -> PartsStatus
    requires limits { IsWithin limits }
    requires some { 1 ≤ length disks.old.items }
    requires few { length disks.old.items ≤ PARTS_MAX }
    ensures promise { PartsPromised limits result
        (outside_parts S.Source K.Sink D.Disk source.old sink.old disks.old.items)
        (outside_parts S.Source K.Sink D.Disk source.new sink.new disks.new.items) }
    ensures disks { SyncsAll D.Disk disks.old.items disks.new.items }
{
    // Its clause says that the parts of a history show together what it shows.
    law_parts_make_the_whole_within_their_ranges();
    match start_parts(rt, alloc, seed, limits, disks) {
        Ok(mut parts) => PartsStatus::from(answer_script(
            rt,
            Commands::OfParts,
            limits.script_bytes,
            &mut parts,
            disks,
            source,
            sink,
        )),
        Err(status) => status,
    }
}
