//! Why a command is not carried out.

ghost use Rattle.std.specs.Prelude.{◌≡◌};
ghost use Rattle.dg_machine.specs.declared.reply.Refusal.TheVariants as refusal;
ghost use Rattle.dg_batch.specs.declared.halt.Halt.TheVariants as halt;
ghost use Rattle.dg_batch.specs.Halt.{batch_halt, creation_halt, retrieval_halt};

use crate::stop::Stop;
use dg_append::BatchFault;
use dg_file::CreateFault;
use dg_machine::Refusal;
use dg_records::RecordFault;
use std::alloc::AllocError;

/// Why a command is not carried out.
#[derive(Clone, Copy)]
pub enum Halt {
    /// It is refused.
    Refusal(Refusal),
    /// It is not answered.
    Stop(Stop),
}

impl From<Refusal> for Halt {
    ghost from_gives = { λ refusal to. to ≡ halt.Refusal refusal };

    fn from(refusal: Refusal) -> Halt {
        Halt::Refusal(refusal)
    }
}

impl From<Stop> for Halt {
    ghost from_gives = { λ stop to. to ≡ halt.Stop stop };

    fn from(stop: Stop) -> Halt {
        Halt::Stop(stop)
    }
}

impl From<AllocError> for Halt {
    ghost from_gives = { λ _ to. to ≡ halt.Refusal refusal.OutOfMemory };

    fn from(_: AllocError) -> Halt {
        Halt::Refusal(Refusal::OutOfMemory)
    }
}

impl From<CreateFault> for Halt {
    ghost from_gives = { λ fault to. to ≡ creation_halt fault };

    fn from(fault: CreateFault) -> Halt {
        match fault {
            CreateFault::Memory => Halt::Refusal(Refusal::OutOfMemory),
            CreateFault::Disk => Halt::Stop(Stop::Store),
        }
    }
}

impl From<BatchFault> for Halt {
    ghost from_gives = { λ fault to. to ≡ batch_halt fault };

    fn from(fault: BatchFault) -> Halt {
        match fault {
            BatchFault::BadChange(line, reason) => {
                Halt::Refusal(Refusal::BadChange(line, reason))
            }
            BatchFault::OldFormat => Halt::Refusal(Refusal::OldFormat),
            BatchFault::FileFull(needed, limit) => Halt::Refusal(Refusal::FileFull(needed, limit)),
            BatchFault::Damaged(key, column) => Halt::Refusal(Refusal::Damaged(key, column)),
            BatchFault::Read => Halt::Refusal(Refusal::StoreRead),
            BatchFault::Memory => Halt::Refusal(Refusal::OutOfMemory),
            BatchFault::Store => Halt::Stop(Stop::Store),
        }
    }
}

impl From<RecordFault> for Halt {
    ghost from_gives = { λ fault to. to ≡ retrieval_halt fault };

    fn from(fault: RecordFault) -> Halt {
        match fault {
            RecordFault::Disk => Halt::Refusal(Refusal::StoreRead),
            RecordFault::Damaged(key, column) => { Halt::Refusal(Refusal::Damaged(key, column)) }
            RecordFault::Memory => Halt::Refusal(Refusal::OutOfMemory),
        }
    }
}
