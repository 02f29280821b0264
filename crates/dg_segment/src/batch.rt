//! The batch that a directory tells of.

ghost use Rattle.std.specs.Prelude.{◌≡◌, ◌≤◌, length};
ghost use Rattle.dg_history.specs.declared.limits.TheConstants.{EVENTS_MAX};
ghost use Rattle.dg_index.specs.ImageText.{eight_at};
ghost use Rattle.dg_index.specs.OpenedIndex.{may_follow};

use dg_graph::TIME_MAX;
use dg_history::{BATCH_LINES_MAX, EVENTS_MAX};
use dg_index::{BatchEntry, Ends};
use dg_numbers::u64_at;

/// The batch that a directory with so many names tells of.
pub fn batch_at(bytes: &[u8], names: u32) -> BatchEntry
    requires { 28 ≤ length bytes.now }
    ensures { result ≡ record { events = eight_at bytes.now 0; ends = record { first = eight_at bytes.now 8; last = eight_at bytes.now 16 }; names = names } }
{
    let ends = Ends {
        first: u64_at(bytes, 8),
        last: u64_at(bytes, 16),
    };
    BatchEntry {
        events: u64_at(bytes, 0),
        ends,
        names,
    }
}

/// Whether the batch may follow so many events, from the earliest time on.
pub fn may_follow(batch: BatchEntry, events: u64, earliest: u64) -> bool
    requires { events ≤ EVENTS_MAX }
    ensures { result ≡ may_follow events earliest batch }
{
    1 <= batch.events
        && batch.events <= u64::from(BATCH_LINES_MAX)
        && events + batch.events <= EVENTS_MAX
        && earliest <= batch.ends.first
        && batch.ends.first <= batch.ends.last
        && batch.ends.last <= TIME_MAX
}
