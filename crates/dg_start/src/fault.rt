//! Why an index file is not started from.

ghost use Rattle.std.specs.Prelude.{◌≡◌};
ghost use Rattle.dg_start.specs.declared.fault.StartFault.TheVariants.{Memory};

use dg_current::FromFault;
use dg_graph::Column;
use dg_history::Key;
use dg_records::RecordFault;
use std::alloc::AllocError;
use std::fmt;
use std::fmt::{Display, Formatter};
use thiserror::Error;

/// A column of a record, named as in replies: `record list 3, column s`.
#[derive(Clone, Copy)]
pub struct RecordColumn(pub Key, pub Column);

impl Display for RecordColumn {
    fn fmt<W: fmt::Write>(&self, f: &mut Formatter<W>) -> fmt::Result {
        match self.0 {
            Key::List(number) => write!(f, "record list {number}")?,
            Key::Piece(number) => write!(f, "record piece {number}")?,
            Key::Top(height) => write!(f, "record top {height}")?,
            Key::Down(height, child) => write!(f, "record down {height} {child}")?,
        }
        f.write_str(match self.1 {
            Column::Structure => ", column s",
            Column::NodeAttr => ", column n",
            Column::EdgeAttr => ", column e",
            Column::Transient => ", column t",
        })
    }
}

/// Why an index file is not started from. docs/FORMATS.md says of each where it comes, in the order in
/// which they are tested.
#[derive(Clone, Copy, Debug, PartialEq, Eq, Error)]
pub enum StartFault {
    /// The disk failed.
    #[error("a call of the disk failed")]
    Disk,
    /// The file is no index.
    #[error("foreign: it is no index of this program; name an index, or a file that is not there yet")]
    Foreign,
    /// A segment breaks the format; the offset of its first byte.
    #[error("damaged at offset {0}: the segment there breaks the format; restore the file from a copy")]
    Damaged(u64),
    /// A record that the start reads has a column that is in no spelling, or the columns of a recent piece do not
    /// come together.
    #[error("damaged in {record}; restore the file from a copy", record = RecordColumn(*.0, *.1))]
    BadRecord(Key, Column),
    /// The records along the plan of the last leaf come to a set that is no graph.
    #[error("damaged: the records of the last leaf come to no graph; restore the file from a copy")]
    NotGraph,
    /// A recent event is not what some change comes to, or is out of its time; its number in the history, from 1.
    #[error("damaged at event {0}: it is none that a change comes to; restore the file from a copy")]
    BadRecent(u64),
    /// Want of memory.
    #[error("out of memory")]
    Memory,
}

impl From<AllocError> for StartFault {
    ghost from_gives = { λ _ fault. fault ≡ Memory };

    fn from(_error: AllocError) -> StartFault {
        StartFault::Memory
    }
}

impl From<FromFault> for StartFault {
    ghost use Rattle.dg_start.specs.Faults.{start_fault_of_set};

    ghost from_gives = { λ made fault. fault ≡ start_fault_of_set made };

    fn from(made: FromFault) -> StartFault {
        match made {
            FromFault::NotGraph => StartFault::NotGraph,
            FromFault::Memory => StartFault::Memory,
        }
    }
}

impl From<RecordFault> for StartFault {
    ghost use Rattle.dg_start.specs.Faults.{start_fault_of};

    ghost from_gives = { λ read fault. fault ≡ start_fault_of read };

    fn from(read: RecordFault) -> StartFault {
        match read {
            RecordFault::Damaged(key, col) => StartFault::BadRecord(key, col),
            RecordFault::Disk => StartFault::Disk,
            RecordFault::Memory => StartFault::Memory,
        }
    }
}
