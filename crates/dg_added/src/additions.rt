//! What the events of some time put in.
ghost use Rattle.std.specs.Prelude.{◌≡◌, ◌++◌, IfOk, OnOk};
ghost use Rattle.dg_added.specs.PutIn.{one_put_within, put_within};
ghost use Rattle.dg_added.specs.Additions.{added_between, lies_within, put_by};

use dg_event::{Body, Event, effect};
use dg_set::{Element, Set};
use std::alloc::{AllocError, Global};

// The element that the event adds, or the message that it is.
fn put_by(event: &Event) -> Option<Element>
    ensures { result ≡ put_by event.now.body }
{
    match event.body {
        Body::Message { src, dst, value } => Some(Element::Message { src, dst, value }),
        _ => {
            let (_, added) = effect(event);
            added
        }
    }
}

// Whether the event is from the one instant on and before the other.
fn lies_within(event: &Event, from: u64, until: u64) -> bool
    ensures { result ≡ lies_within from until event.now }
{
    from <= event.time && event.time < until
}

// What the event puts in, where it is from the one instant on and before the other.
fn one_put_within(event: &Event, from: u64, until: u64) -> Option<Element>
    ensures { result ≡ one_put_within from until event.now }
{
    if lies_within(event, from, until) {
        put_by(event)
    } else {
        None
    }
}

/// Adds what the events from the instant `from` on and before `until` put in, in the order of the events: the element that
/// an event adds, or the message that it is. An `Err` says that memory ran out; then a part may be added.
pub fn push_added(
    put: &mut Vec<Element>,
    events: &[Event],
    from: u64,
    until: u64,
) -> Result<(), AllocError>
    ensures { OnOk result (put.new.items ≡ put.old.items ++ put_within from until events.now) }
{
    for event in events {
        if let Some(element) = one_put_within(event, from, until) {
            put.push(element)?;
        }
    }
    Ok(())
}

/// The elements that the events from the instant `from` on and before `until` add, with the messages of these events,
/// whether or not they are there later. The events may stand in any order. One sort of what they put in. An `Err` says
/// that memory ran out.
pub fn added(alloc: Global, events: &[Event], from: u64, until: u64) -> Result<Set, AllocError>
    ensures { IfOk result (λ set. set ≡ added_between from until events.now) }
{
    let mut put = Vec::new(alloc);
    push_added(&mut put, events, from, until)?;
    Ok(Set::from_unsorted(put))
}
