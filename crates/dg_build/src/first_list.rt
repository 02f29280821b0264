//! The events behind the last leaf, cut behind those of the first list.

ghost use Rattle.std.specs.Prelude.{◌≡◌, ◌≤◌, ◌<◌, ◌+◌, ◌-◌, ◌*◌, ◌++◌, length, take, drop, min, IfOk};
ghost use Rattle.dg_graph.specs.declared.event.Event.{Event};

use dg_event::Event;
use std::alloc::{AllocError, Global};

/// How many events of the batch are in the first list of `l` events, which begins with the recent ones: none where the
/// batch does not close it.
pub(crate) fn first_count(l: usize, recent: &[Event], events: &[Event]) -> usize
    requires { length recent.now < l }
    ensures full { 1 ≤ result → result ≡ min (l - length recent.now) (length events.now) }
    ensures short { result ≡ 0 → length recent.now + length events.now < l }
    ensures within { result ≤ length events.now }
{
    let missing = l - recent.len();
    if missing <= events.len() { missing } else { 0 }
}

/// The events of the first list: the recent ones, and the first `count` of the batch. Where `count` is 0 no list is made, so
/// that a batch which closes none costs nothing here. An `Err` says that memory ran out.
pub(crate) fn first_list(
    alloc: Global,
    recent: &[Event],
    events: &[Event],
    count: usize,
) -> Result<Vec<Event>, AllocError>
    requires { count ≤ length events.now }
    ensures { IfOk result (λ list. 1 ≤ count → list.items ≡ recent.now ++ take count events.now) }
{
    if count == 0 {
        return Ok(Vec::new(alloc));
    }
    let mut list = Vec::with_capacity(alloc, recent.len() + count)?;
    list.extend_from_slice(recent)?;
    list.extend_from_slice(&events[..count])?;
    Ok(list)
}

/// The events up to the end of the first list, or the recent ones where none is closed.
pub(crate) fn first_events<'a>(
    list: &'a Vec<Event>,
    recent: &'a [Event],
    count: usize,
) -> &'a [Event]
    ensures full { 1 ≤ count → result.now ≡ list.now.items }
    ensures short { count ≡ 0 → result.now ≡ recent.now }
{
    if count == 0 {
        return recent;
    }
    list
}

/// The list with this index, of `l` events each, where `first` has the events of the first list, and `later`
/// those behind it.
pub(crate) fn list_at<'a>(first: &'a [Event], later: &'a [Event], l: usize, i: usize) -> &'a [Event]
    requires first { length first.now ≡ l }
    requires there { i * l ≤ length later.now }
    ensures { result.now ≡ take l (drop (i * l) (first.now ++ later.now)) }
{
    if i == 0 {
        return first;
    }
    &later[(i - 1) * l..i * l]
}
