//! The limits of batches, histories and files.
ghost use Rattle.std.specs.Prelude.{◌≡◌, ◌^◌};
ghost use Rattle.dg_history.specs.declared.params.TheConstants.{ARITY_MAX, ARITY_MIN, LEAF_MAX, LEAF_MIN};

/// The bytes of an index file that may be in use, at the standard limits.
pub const FILE_BYTES_MAX: u64 = 281_474_976_710_656;

/// The most lines of a batch, and so the most events.
pub const BATCH_LINES_MAX: u32 = 1_048_576;

/// The most events of a history: 2^28.
pub const EVENTS_MAX: u64 = 268_435_456;

/// The limits as numbers: lines, events, bytes, the leaf list size in events and the arity in children. Does
/// nothing.
pub fn history_limits()
    ensures batch { BATCH_LINES_MAX ≡ 2 ^ 20 }
    ensures events { EVENTS_MAX ≡ 2 ^ 28 }
    ensures file { FILE_BYTES_MAX ≡ 2 ^ 48 }
    ensures leaf_least { LEAF_MIN ≡ 2 }
    ensures leaf_greatest { LEAF_MAX ≡ 65536 }
    ensures arity_least { ARITY_MIN ≡ 2 }
    ensures arity_greatest { ARITY_MAX ≡ 64 }
{}
