//! How a session begins: from the file that the disk has, checked or not.

ghost use Rattle.std.specs.Prelude.{◌≡◌, ◌⊎◌, ℕ, ◌+◌, ◌<◌, IfErr, IfSome, IsErrOf, OnOk, Ok, Option, None, not, IfOk};
ghost use Rattle.dg_disk.specs.Calls.{Fails, IsOnDevice, ReadsDisk, SyncsDisk};
ghost use Rattle.dg_append.specs.LiveHistories.{IsLiveHistory};
ghost use Rattle.dg_append.specs.Overlays.{pool_of};
ghost use Rattle.dg_history.specs.History.{History};
ghost use Rattle.dg_index.specs.ImageOfHistory.{StandsAs};
ghost use Rattle.dg_machine.specs.MachineState.{IsWithin, machine_at};
ghost use Rattle.dg_pool.specs.Graphs.{slot_graph};
ghost use Rattle.dg_session.specs.Session.{HoldsImage, StandsFor};
ghost use Rattle.dg_session.specs.SessionStart.{FailsCheck, IsNew, IsSoundImage};
ghost use Rattle.dg_start.specs.Calls.{TakesStart};
ghost use Rattle.dg_start.specs.SessionStart.{RefusesStart, Starts, started_with};
ghost use Rattle.dg_stored.specs.StoredHistory.{IsHeldBy, KeepsHistory, index_opening};

use super::Session;
use crate::session_fault::SessionFault;
use dg_append::Live;
use dg_ask::{KeptAdjacency, KeptPlanner};
use dg_batch::Held;
use dg_disk::Disk;
use dg_handles::Handles;
use dg_machine::Limits;
use dg_seed::Seed;
use dg_sound::Soundness;
use dg_start::{StartFault, open};
use std::alloc::Global;
use std::thread::Threads;

impl Session {
    // A session that is not checked.
    pub(super) fn begin<R: Threads + Sync, D: Disk>(
        rt: &R,
        alloc: Global,
        seed: Seed,
        disk: &mut D,
        limits: Limits,
    ) -> Result<Session, StartFault>
        requires limits { IsWithin limits }

        // the session
        ensures started { IfOk result (λ session. IfSome (D.image disk.old) (λ image.
            Starts image (Ok (started_with session.parts.index session.parts.names session.parts.graph session.parts.recent)))) }
        ensures new { IfOk result (λ session. IsNew limits session.parts) }
        ensures stands { IfOk result (λ session. IfSome (D.image disk.old) (λ image. (index : Option History)
            → StandsAs index image → StandsFor session.parts image (machine_at limits index))) }
        ensures held { IfOk result (λ session. HoldsImage session.parts (D.image disk.new)) }

        // the bytes read
        ensures takes { IfSome (D.image disk.old) (λ image. TakesStart result image (D.taken disk.old) (D.taken disk.new)) }

        // why there is none
        ensures refused { IfErr result (λ fault. IfSome (D.image disk.old) (λ image. RefusesStart fault image)) }
        ensures never { IfErr result (λ fault. IfSome (D.image disk.old) (λ image. (index : Option History)
            → StandsAs index image → (fault ≡ StartFault.Disk) ⊎ (fault ≡ StartFault.Memory))) }
        ensures cause { IsErrOf result StartFault.Disk → Fails D.Disk disk.old disk.new }

        // what it leaves
        ensures disk { SyncsDisk D.Disk disk.old disk.new }
        ensures settled { OnOk result (IsOnDevice D.Disk disk.new) }
    {
        let handles = Handles::new(alloc, limits.first_handle)?;
        match open_live(rt, alloc, seed, disk) {
            Ok(live) => Ok(Session {
                limits,
                held: Held {
                    live,
                    handles,
                    adjacency: KeptAdjacency::new(),
                },
                planner: KeptPlanner::new(alloc),
                indexes: Vec::new(alloc),
                alloc,
            }),
            Err(fault) => Err(fault),
        }
    }

    // The session, where the file is what its own events determine, or there is no index, and else why there is none.
    pub(super) fn checked<R: Threads, D: Disk>(
        mut self,
        rt: &R,
        disk: &mut D,
    ) -> Result<Session, SessionFault>
        requires image { HoldsImage self.parts (D.image disk.old) }

        // the session
        ensures same { IfOk result (λ session. session ≡ self) }
        ensures sound { OnOk result (IfSome (D.image disk.old) (λ image. IsSoundImage image)) }

        // why there is none
        ensures fails { IfErr result (λ fault. IfSome (D.image disk.old) (λ image. FailsCheck fault image)) }
        ensures cause { IsErrOf result (SessionFault.Start StartFault.Disk) → Fails D.Disk disk.old disk.new }

        // what it leaves
        ensures disk { ReadsDisk D.Disk disk.old disk.new }
    {
        match self.check(rt, disk) {
            Ok(()) => Ok(self),
            Err(fault) => {
                // By a call, which spares a proof of what it drops from being written out here.
                drop(self);
                Err(fault)
            }
        }
    }

    // Nothing where the file is what its own events determine, or there is no index, and else why not.
    pub(super) fn check<R: Threads, D: Disk>(
        &mut self,
        rt: &R,
        disk: &mut D,
    ) -> Result<(), SessionFault>
        requires image { HoldsImage self.old.parts (D.image disk.old) }
        ensures sound { OnOk result (IfSome (D.image disk.old) (λ image. IsSoundImage image)) }

        // why not
        ensures fails { IfErr result (λ fault. IfSome (D.image disk.old) (λ image. FailsCheck fault image)) }
        ensures cause { IsErrOf result (SessionFault.Start StartFault.Disk) → Fails D.Disk disk.old disk.new }

        // what it leaves
        ensures same { self.new ≡ self.old }
        ensures disk { ReadsDisk D.Disk disk.old disk.new }
    {
        if !self.has_index() {
            return Ok(());
        }
        match self.soundness(rt, disk)? {
            Soundness::Sound(_) => Ok(()),
            Soundness::Unsound(key, column) => Err(SessionFault::Unsound(key, column)),
        }
    }
}

// The history of the file that the disk has. No graph is overlaid on its current one, and there is no pool.
fn open_live<R: Threads + Sync, D: Disk>(
    rt: &R,
    alloc: Global,
    seed: Seed,
    disk: &mut D,
) -> Result<Live, StartFault>
    // the history
    ensures started { IfOk result (λ made. IfSome (D.image disk.old) (λ image.
        Starts image (Ok (started_with (index_opening made.history.index) made.history.names made.history.now.graph made.history.recent.items)))) }
    ensures stands { IfOk result (λ made. IfSome (D.image disk.old) (λ image. (z : Option History) → StandsAs z image
        → KeepsHistory z (index_opening made.history.index) made.history.names made.history.now.graph made.history.recent.items)) }
    ensures live { IfOk result (λ made. IsLiveHistory made × ((s : ℕ) → slot_graph (pool_of made.pool) s ≡ None)) }
    ensures held { IfOk result (λ made. IfSome (D.image disk.new) (λ image. IsHeldBy (index_opening made.history.index) made.history.names image)) }

    // the bytes read
    ensures takes { IfSome (D.image disk.old) (λ image. TakesStart result image (D.taken disk.old) (D.taken disk.new)) }

    // why there is none
    ensures refused { IfErr result (λ fault. IfSome (D.image disk.old) (λ image. RefusesStart fault image)) }
    ensures never { IfErr result (λ fault. IfSome (D.image disk.old) (λ image. (index : Option History)
        → StandsAs index image → (fault ≡ StartFault.Disk) ⊎ (fault ≡ StartFault.Memory))) }
    ensures cause { IsErrOf result StartFault.Disk → Fails D.Disk disk.old disk.new }

    // what it leaves
    ensures disk { SyncsDisk D.Disk disk.old disk.new }
    ensures settled { OnOk result (IsOnDevice D.Disk disk.new) }
{
    match open(rt, alloc, seed, disk) {
        Ok(history) => Ok(Live {
            history,
            pool: None,
        }),
        Err(fault) => Err(fault),
    }
}
