//! Why a set is no graph, and why changes come to no events.
ghost use Rattle.std.specs.Prelude.{◌≡◌};
ghost use Rattle.dg_current.specs.declared.fault.FromFault.TheVariants as from;
ghost use Rattle.dg_current.specs.declared.fault.PrepareFault.TheVariants as prepare;

use std::alloc::AllocError;
use thiserror::Error;

/// Why a set is not taken as the current graph.
#[derive(Clone, Copy, Debug, PartialEq, Eq, Error)]
pub enum FromFault {
    /// The set is no graph: an element lacks what it needs, or two elements have one id.
    #[error("the set is no graph")]
    NotGraph,
    /// Want of memory.
    #[error("out of memory")]
    Memory,
}

/// Why the changes of a batch come to no events.
#[derive(Clone, Copy, Debug, PartialEq, Eq, Error)]
pub enum PrepareFault {
    /// The least line that is refused, from 1, and the first reason against it, one of the constants
    /// `REASON_..` of `dg_graph`.
    #[error("line {line} is refused for reason {reason}")]
    BadChange { line: u32, reason: u8 },
    /// Want of memory.
    #[error("out of memory")]
    Memory,
}

impl From<AllocError> for FromFault {
    ghost from_gives = { λ _ fault. fault ≡ from.Memory };

    fn from(_: AllocError) -> FromFault {
        FromFault::Memory
    }
}

impl From<AllocError> for PrepareFault {
    ghost from_gives = { λ _ fault. fault ≡ prepare.Memory };

    fn from(_: AllocError) -> PrepareFault {
        PrepareFault::Memory
    }
}
