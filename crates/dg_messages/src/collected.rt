//! The messages of instants, collected from events.
ghost use Rattle.std.specs.Prelude.{◌≡◌, ◌++◌, length, OnOk};
ghost use Rattle.dg_messages.specs.Collected.{AreAdded, message_at, messages_at};

use dg_graph::{Body, Element, Event};
use std::alloc::{AllocError, Global};

// The message of the event, if it is one of exactly the instant.
fn message_at(event: &Event, t: u64) -> Option<Element>
    ensures { result ≡ message_at t event.now }
{
    if event.time != t {
        return None;
    }
    match event.body {
        Body::Message { src, dst, value } => Some(Element::Message { src, dst, value }),
        _ => None,
    }
}

// Adds the messages of exactly the instant, in the order of the events.
fn push_messages(list: &mut Vec<Element>, events: &[Event], t: u64) -> Result<(), AllocError>
    ensures { OnOk result (list.new.items ≡ list.old.items ++ messages_at t events.now) }
{
    for event in events {
        if let Some(message) = message_at(event, t) {
            list.push(message)?;
        }
    }
    Ok(())
}

/// Adds to each list the messages of its instant, in the order of the events. Each event is compared to each instant. An
/// `Err` says that memory ran out; then some of the messages may be added.
pub(crate) fn push_all(
    lists: &mut [Vec<Element>],
    events: &[Event],
    times: &[u64],
) -> Result<(), AllocError>
    requires { length lists.old ≡ length times.now }
    ensures { OnOk result (AreAdded events.now times.now lists.old lists.new) }
{
    for n in 0..times.len() {
        push_messages(&mut lists[n], events, times[n])?;
    }
    Ok(())
}
