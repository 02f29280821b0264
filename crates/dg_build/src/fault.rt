//! Why no segment was made.

ghost use Rattle.std.specs.Prelude.{◌≡◌};
ghost use Rattle.dg_build.specs.declared.fault.BuildFault.TheVariants.{Memory};

use std::alloc::{AllocError, AllocFailed};
use thiserror::Error;

/// Why no segment was made.
#[derive(Clone, Copy, Debug, PartialEq, Eq, Error)]
pub enum BuildFault {
    /// Memory ran out.
    #[error("out of memory")]
    Memory,
    /// A set of the due delta with this index, from 0 in the order of the segment, has more elements
    /// than its column can count, and none of the due deltas before it has such a set.
    #[error("the delta {0} of the segment has too many elements")]
    Wide(usize),
}

impl From<AllocError> for BuildFault {
    ghost from_gives = { λ _ e. e ≡ Memory };

    fn from(_error: AllocError) -> BuildFault {
        BuildFault::Memory
    }
}

impl<T: Drop> From<AllocFailed<T>> for BuildFault {
    ghost from_gives = { λ _ e. e ≡ Memory };

    fn from(_error: AllocFailed<T>) -> BuildFault {
        BuildFault::Memory
    }
}
