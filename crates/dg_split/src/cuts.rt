//! How events are cut into batches.
ghost use Rattle.std.specs.Prelude.{◌≡◌, ◌≤◌, length};
ghost use Rattle.dg_history.specs.declared.limits.TheConstants.{BATCH_LINES_MAX};
ghost use Rattle.dg_partition.specs.Cuts.{cut_of, may_end};

use dg_graph::Event;
use dg_history::BATCH_LINES_MAX;

// Whether a batch may end behind the first `count` of the events: none is left, or the next one is later.
fn may_end(events: &[Event], count: usize) -> bool
    requires some { 1 ≤ count }
    requires within { count ≤ length events.now }
    ensures { result ≡ may_end events.now count }
{
    count == events.len() || events[count - 1].time < events[count].time
}

/// How many of the events the next batch has: the most with which it may end. None where more events than a batch may have
/// are of the first instant.
pub fn next_cut(events: &[Event]) -> usize
    ensures cut { result ≡ cut_of events.now }
    ensures few { result ≤ BATCH_LINES_MAX }
    ensures within { result ≤ length events.now }
{
    let mut count = events.len().min(BATCH_LINES_MAX as usize);
    while count > 0 && !may_end(events, count) {
        count -= 1;
    }
    count
}
