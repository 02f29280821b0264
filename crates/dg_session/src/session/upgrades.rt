//! The file of the index goes on in its second form.

ghost use Rattle.std.specs.Prelude.{◌≡◌, ◌≤◌, IsErrOf, IfSome, List, [], Ok, Err, Option, None, Some};
ghost use Rattle.dg_batch.specs.Held.{IsHeld};
ghost use Rattle.dg_disk.specs.Calls.{FailsToWrite, LeftByCrash, WritesDisk};
ghost use Rattle.dg_file.specs.Images.{GainsUpgradeOrNot, IsOpenedAs};
ghost use Rattle.dg_history.specs.declared.limits.TheConstants.{FILE_BYTES_MAX};
ghost use Rattle.dg_machine.specs.Answer.{headed};
ghost use Rattle.dg_session.specs.Calls.{TreatsDisk};
ghost use Rattle.dg_session.specs.Reads.{ReadsIn};
ghost use Rattle.dg_session.specs.Session.{ComesTo, HoldsImage, LeavesCommand};
ghost use Rattle.dg_session.specs.Upgrade.{IsNarrow, MarksHeld, upgrade_halt};
ghost use Rattle.dg_stored.specs.StoredHistory.{index_opening};

use super::Session;
use crate::needs::Needs;
use dg_batch::{Halt, Held, Stop};
use dg_disk::Disk;
use dg_file::CommitFault;
use dg_machine::{Command, Head, Refusal, Reply};
use std::alloc::Global;

impl Session {
    // The file goes on in its second form. Takes no memory.
    pub(super) fn upgrade<D: Disk>(&mut self, disk: &mut D) -> Result<Reply, Halt>
        requires image { HoldsImage self.old.parts (D.image disk.old) }

        // what it comes to
        ensures comes { ComesTo Command.Upgrade [] self.old.parts (D.image disk.old) self.new.parts (D.image disk.new) result }

        // why it stops
        ensures store { IsErrOf result (Halt.Stop Stop.Store) → FailsToWrite D.Disk disk.old disk.new }
        ensures no_read { IsErrOf result (Halt.Stop Stop.Read) → ⊥ }
        ensures no_limit { IsErrOf result (Halt.Stop Stop.Limit) → ⊥ }

        // what it reads and leaves, and what a crash leaves
        ensures reads { ReadsIn Command.Upgrade self.old.parts (D.image disk.old) result (D.taken disk.old) (D.taken disk.new) }
        ensures disk { TreatsDisk D.Disk disk.old disk.new result }
        ensures crash { LeftByCrash D.Disk disk.old disk.new (LeavesCommand Command.Upgrade [] self.old.parts result) }
    {
        let needs = Needs {
            index: true,
            first_form: true,
            ..Needs::NOTHING
        };
        if let Some(refusal) = self.refused(&needs, 0) {
            return Err(Halt::Refusal(refusal));
        }
        let limit = self.limits.file_bytes;
        self.planner.forget();
        match mark(self.alloc, limit, &mut self.held, disk) {
            Ok(()) => Ok(Reply::headed(self.alloc, Head::Upgraded)),
            Err(fault) => Err(upgrade_halt(fault, limit)),
        }
    }
}

// Writes the marker behind which the file goes on in its second form; it may have `limit` bytes in use. Where the disk
// failed, what the file holds is not known, so the history, the handles and their graphs are forgotten, and with them
// the adjacencies that are kept.
fn mark<D: Disk>(
    alloc: Global,
    limit: u64,
    held: &mut Held,
    disk: &mut D,
) -> Result<(), CommitFault>
    requires limit { limit ≤ FILE_BYTES_MAX }
    requires narrow { IsNarrow (index_opening held.old.live.history.index) }
    requires held { IsHeld held.old }
    requires image { IfSome (D.image disk.old) (λ image. IfSome (index_opening held.old.live.history.index) (λ o. IsOpenedAs image o)) }
    ensures marks { IfSome (index_opening held.old.live.history.index) (λ o. MarksHeld D.Disk limit o held.old held.new disk.old disk.new result) }
    ensures held { IsHeld held.new }

    // what it leaves, and what a crash leaves
    ensures frame { WritesDisk D.Disk disk.old disk.new }
    ensures crash { LeftByCrash D.Disk disk.old disk.new GainsUpgradeOrNot }
{
    let Some(index) = &mut held.live.history.index else {
        unreachable!()
    };
    match index.upgrade(disk, limit) {
        Ok(()) => Ok(()),
        Err(CommitFault::FileFull(needed)) => Err(CommitFault::FileFull(needed)),
        Err(CommitFault::Disk) => {
            forget(alloc, held);
            Err(CommitFault::Disk)
        }
    }
}

// Forgets the history, the handles and their graphs, and the adjacencies that are kept. Takes no memory.
fn forget(alloc: Global, held: &mut Held)
    ensures { IsHeld held.new }
{
    held.live.forget(alloc);
    held.handles.clear();
    held.adjacency.forget();
}

// Why the file does not go on, where it may have `limit` bytes in use.
fn upgrade_halt(fault: CommitFault, limit: u64) -> Halt
    ensures { result ≡ upgrade_halt limit fault }
{
    match fault {
        CommitFault::FileFull(needed) => Halt::Refusal(Refusal::FileFull(needed, limit)),
        CommitFault::Disk => Halt::Stop(Stop::Store),
    }
}
