//! Why verifying goes no further.

ghost use Rattle.std.specs.Prelude.{◌≡◌};
ghost use Rattle.dg_verify.specs.declared.stop.Stop.TheVariants.{Memory};

use dg_file::FetchFault;
use dg_graph::Column;
use dg_history::Key;
use dg_records::RecordFault;
use std::alloc::AllocError;

/// Why verifying goes no further.
#[derive(Clone, Copy)]
pub enum Stop {
    /// The record is not right, in this column.
    Wrong(Key, Column),
    /// The disk failed.
    Disk,
    /// Want of memory.
    Memory,
}

impl From<AllocError> for Stop {
    ghost from_gives = { λ _ stop. stop ≡ Memory };

    fn from(_error: AllocError) -> Stop {
        Stop::Memory
    }
}

impl From<FetchFault> for Stop {
    ghost use Rattle.dg_verify.specs.Stops.{stop_of_fetch};

    ghost from_gives = { λ read stop. stop ≡ stop_of_fetch read };

    fn from(read: FetchFault) -> Stop {
        match read {
            FetchFault::Disk => Stop::Disk,
            FetchFault::Memory => Stop::Memory,
        }
    }
}

impl From<RecordFault> for Stop {
    ghost use Rattle.dg_verify.specs.Stops.{stop_of_record};

    ghost from_gives = { λ read stop. stop ≡ stop_of_record read };

    fn from(read: RecordFault) -> Stop {
        match read {
            RecordFault::Damaged(key, col) => Stop::Wrong(key, col),
            RecordFault::Disk => Stop::Disk,
            RecordFault::Memory => Stop::Memory,
        }
    }
}
