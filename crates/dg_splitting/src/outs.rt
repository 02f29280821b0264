//! The outs are asked, before any is written.
ghost use Rattle.std.specs.Prelude.{◌≡◌, ◌≤◌, IfErr, IfOk, IfSome, OnOk, length};
ghost use Rattle.dg_disk.specs.Calls.{SyncsDisk};
ghost use Rattle.dg_index.specs.ImageOfHistory.{is_blank};
ghost use Rattle.dg_splitting.specs.Ends.{FailsOut, StopsAsking};
ghost use Rattle.dg_splitting.specs.Outs.{AreAsked, AreBlank};

use crate::parts::PARTS_MAX;
use crate::status::SplitStatus;
use dg_disk::Disk;
use dg_file::{Index, ReopenFault};
use dg_names::Names;
use dg_seed::Seed;
use std::alloc::Global;

// Whether the out has no index, and no bytes of another file.
fn is_blank<D: Disk>(alloc: Global, seed: Seed, out: &mut D) -> Result<bool, SplitStatus>
    ensures blank { IfOk result (λ blank. IfSome (D.image out.old) (λ image. is_blank image ≡ blank)) }
    ensures fails { IfErr result (λ status. FailsOut D.Disk status out.old out.new) }
    ensures asked { SyncsDisk D.Disk out.old out.new }
{
    let mut names = Names::new(alloc, seed);
    match Index::reopen(alloc, out, &mut names) {
        Ok(_index) => Ok(false),
        Err(ReopenFault::Blank) => Ok(true),
        Err(ReopenFault::Foreign) => Ok(false),
        Err(ReopenFault::Damaged(_)) => Ok(false),
        Err(ReopenFault::Disk) => Err(SplitStatus::DiskFault),
        Err(ReopenFault::Memory) => Err(SplitStatus::NoMemory),
    }
}

/// Asks each out whether it is blank, and writes nothing.
///
/// `SplitStatus::Exists` with the number of the first that is not, `SplitStatus::DiskFault` where a disk failed,
/// `SplitStatus::NoMemory` for want of memory.
pub(crate) fn ask_all<D: Disk>(alloc: Global, seed: Seed, outs: &mut [D]) -> Result<(), SplitStatus>
    requires few { length outs.old ≤ PARTS_MAX }
    ensures blank { OnOk result (AreBlank D.Disk outs.old) }
    ensures stops { IfErr result (λ status. StopsAsking D.Disk status outs.old outs.new) }
    ensures asked { AreAsked D.Disk outs.old outs.new }
{
    for number in 0..outs.len() {
        if !is_blank(alloc, seed, &mut outs[number])? {
            return Err(SplitStatus::Exists(number as u32));
        }
    }
    Ok(())
}
