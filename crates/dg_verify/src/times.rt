//! The times of events.

ghost use Rattle.std.specs.Prelude.{◌≡◌};
ghost use Rattle.dg_history.specs.History.{first_time_of, last_time_from};
ghost use Rattle.dg_sound.specs.OwnEvents.{are_ends};

use dg_graph::Event;
use dg_index::Ends;

/// The time of the first of the events, or 0.
pub fn first_time(events: &[Event]) -> u64
    ensures { result ≡ first_time_of events.now }
{
    match events.first() {
        Some(event) => event.time,
        None => 0,
    }
}

/// The time of the last of the events, or 0.
pub fn last_time(events: &[Event]) -> u64
    ensures { result ≡ last_time_from 0 events.now }
{
    match events.last() {
        Some(event) => event.time,
        None => 0,
    }
}

/// Whether the times are those of the first and of the last of the events.
pub fn are_ends(ends: Ends, events: &[Event]) -> bool
    ensures { result ≡ are_ends ends events.now }
{
    ends.first == first_time(events) && ends.last == last_time(events)
}
