//! What the events of the file themselves determine, and whether the file is that.

ghost use Rattle.std.specs.Prelude.{◌≡◌, ◌<◌, IsErrOf, [], Ok, Some, is_some, true, IfOk};
ghost use Rattle.dg_disk.specs.Calls.{Fails, ReadsDisk};
ghost use Rattle.dg_machine.specs.Answer.{headed};
ghost use Rattle.dg_session.specs.Calls.{ReadsFile};
ghost use Rattle.dg_session.specs.Reads.{ReadsRecords};
ghost use Rattle.dg_session.specs.Session.{ComesTo, HoldsImage};
ghost use Rattle.dg_session.specs.Verified.{IsOfFile, VerifiesFile, verify_halt};
ghost use Rattle.dg_batch.specs.declared.stop.Stop.TheVariants as stop;

use super::Session;
use crate::needs::Needs;
use dg_batch::{Halt, Stop};
use dg_disk::Disk;
use dg_machine::{Command, Head, Refusal, Reply};
use dg_sound::Soundness;
use dg_sound_files::law_standing_files_are_sound;
use dg_verify::{VerifyFault, verify};
use std::thread::Threads;

impl Session {
    // Whether the file is what its own events determine, as the reply.
    pub(super) fn verify<R: Threads, D: Disk>(
        &mut self,
        rt: &R,
        disk: &mut D,
    ) -> Result<Reply, Halt>
        requires image { HoldsImage self.old.parts (D.image disk.old) }

        // what it comes to
        ensures comes { ComesTo Command.Verify [] self.old.parts (D.image disk.old) self.new.parts (D.image disk.new) result }
        ensures no_stop { (stop : Stop) → result ≡ Err (Halt.Stop stop) → ⊥ }
        ensures verified { IfOk result (λ reply. VerifiesFile Command.Verify self.old.parts (D.image disk.old) reply) }

        // why it is refused for a read
        ensures store_read { IsErrOf result (Halt.Refusal Refusal.StoreRead) → Fails D.Disk disk.old disk.new }

        // what it reads and leaves
        ensures file { ReadsFile D.Disk Command.Verify self.old.parts disk.old disk.new result }
        ensures disk { ReadsDisk D.Disk disk.old disk.new }
    {
        law_standing_files_are_sound();
        let needs = Needs {
            index: true,
            ..Needs::NOTHING
        };
        if let Some(refusal) = self.refused(&needs, 0) {
            return Err(Halt::Refusal(refusal));
        }
        let soundness = match self.soundness(rt, disk) {
            Ok(soundness) => soundness,
            Err(fault) => return Err(verify_halt(fault)),
        };
        Ok(Reply::headed(self.alloc, Head::Verified(soundness)))
    }

    // Whether the file is what its own events determine.
    pub(super) fn soundness<R: Threads, D: Disk>(
        &mut self,
        rt: &R,
        disk: &mut D,
    ) -> Result<Soundness, VerifyFault>
        requires there { is_some self.old.parts.index ≡ true }
        requires image { HoldsImage self.old.parts (D.image disk.old) }
        ensures sound { IfOk result (λ soundness. IsOfFile self.old.parts (D.image disk.old) soundness) }
        ensures cause { IsErrOf result VerifyFault.Disk → Fails D.Disk disk.old disk.new }

        // what it reads, and what it leaves
        ensures takes { ReadsRecords self.old.parts (D.image disk.old) (D.taken disk.old) (D.taken disk.new) }
        ensures same { self.new ≡ self.old }
        ensures disk { ReadsDisk D.Disk disk.old disk.new }
    {
        let Some(index) = &mut self.held.live.history.index else {
            unreachable!()
        };
        verify(rt, self.alloc, index, disk, &self.held.live.history.names)
    }
}

// Why the file is not verified.
fn verify_halt(fault: VerifyFault) -> Halt
    ensures { result ≡ verify_halt fault }
{
    match fault {
        VerifyFault::Disk => Halt::Refusal(Refusal::StoreRead),
        VerifyFault::Memory => Halt::Refusal(Refusal::OutOfMemory),
    }
}
