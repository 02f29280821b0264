//! Which events belong to a part.
ghost use Rattle.std.specs.Prelude.{◌≡◌, ◌<◌, IfOk};
ghost use Rattle.dg_partition.specs.Owners.{belongs, events_of_part, owner_of_body};

use dg_graph::{Body, Event};
use std::alloc::{AllocError, Global};

// The id by which an event is placed: an event on a node alone has none.
fn owner(body: &Body) -> Option<u64>
    ensures { result ≡ owner_of_body body.now }
{
    match *body {
        Body::NodeAdded { .. } | Body::NodeRemoved { .. } => None,
        Body::EdgeAdded { id, .. }
        | Body::EdgeRemoved { id, .. }
        | Body::NodeAttr { id, .. }
        | Body::EdgeAttr { id, .. } => Some(id),
        Body::Message { src, .. } => Some(src),
    }
}

/// Whether the event belongs to this part of so many: what adds or removes a node belongs to every part, and everything else
/// to one, by its id.
pub fn belongs(parts: u32, part: u32, event: &Event) -> bool
    requires { 0 < parts }
    ensures { result ≡ belongs parts part event.now }
{
    match owner(&event.body) {
        None => true,
        Some(id) => id % u64::from(parts) == u64::from(part),
    }
}

/// The events that belong to the part, in their order. An `Err` says that memory ran out.
pub fn events_of_part(
    alloc: Global,
    parts: u32,
    part: u32,
    events: &[Event],
) -> Result<Vec<Event>, AllocError>
    requires { 0 < parts }
    ensures { IfOk result (λ own. own.items ≡ events_of_part parts part events.now) }
{
    let mut own = Vec::new(alloc);
    for event in events {
        if belongs(parts, part, event) {
            own.push(*event)?;
        }
    }
    Ok(own)
}
