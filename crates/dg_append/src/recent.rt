//! The events behind the last closed list.

ghost use Rattle.std.specs.Prelude.{◌≡◌, ◌≤◌, ◌+◌, ◌-◌, ◌*◌, length, drop, vec_len, IfOk};
ghost use Rattle.std.specs.Vec.{vec_capacity};
ghost use Rattle.dg_append.specs.AddedBatches.{left_behind, recent_behind};
ghost use Rattle.dg_history.specs.declared.limits.TheConstants.{EVENTS_MAX};
ghost use Rattle.dg_index.specs.Hierarchy.{leaves};
ghost use Rattle.dg_index.specs.OpenedIndex.{event_total};

use dg_catalogue::leaves;
use dg_file::Index;
use dg_graph::Event;
use std::alloc::{AllocError, Global};

// The events behind the first `count`, or none where there are not so many.
fn behind(events: &[Event], count: usize) -> &[Event]
    ensures { result.now ≡ drop count events.now }
{
    &events[count.min(events.len())..]
}

// How many events stand in the lists that a batch of so many closes.
fn closed_by(index: &Index, count: u64) -> usize
    requires { event_total index.now.opening.batches + count ≤ EVENTS_MAX }
    ensures { result ≡ leaves index.now.opening.params (event_total index.now.opening.batches + count) * index.now.opening.params.l
        - leaves index.now.opening.params (event_total index.now.opening.batches) * index.now.opening.params.l }
{
    index.facts();
    let params = index.params();
    let events = index.events_len();
    let lists = leaves(params, events + count) - leaves(params, events);
    lists as usize * params.l as usize
}

/// The events behind the last closed list, once these stand behind those of the index, of which those were recent; or
/// `None` where they close no list, so that they stand behind the recent ones and all of them stay. An `Err` says that memory
/// ran out.
pub(crate) fn recent_behind(
    alloc: Global,
    index: &Index,
    recent: &[Event],
    events: &[Event],
) -> Result<Option<Vec<Event>>, AllocError>
    requires { event_total index.now.opening.batches + length events.now ≤ EVENTS_MAX }
    ensures { IfOk result (λ left. left_behind left recent.now events.now ≡ recent_behind index.now.opening.params (event_total index.now.opening.batches) recent.now events.now) }
{
    let closed = closed_by(index, events.len() as u64);
    if closed == 0 {
        return Ok(None);
    }
    let mut left = Vec::new(alloc);
    left.extend_from_slice(behind(recent, closed))?;
    left.extend_from_slice(behind(events, closed.saturating_sub(recent.len())))?;
    Ok(Some(left))
}

/// Takes the recent events on to those that are left behind these, for which there is room.
pub(crate) fn take_recent_on(recent: &mut Vec<Event>, left: Option<Vec<Event>>, events: &[Event])
    requires { vec_len recent.old + length events.now ≤ vec_capacity recent.old }
    ensures { recent.new.items ≡ left_behind left recent.old.items events.now }
{
    match left {
        Some(left) => *recent = left,
        None => recent.extend_from_slice(events).unwrap(),
    }
}
