//! The changes that come to events.
ghost use Rattle.std.specs.Prelude.{◌≡◌, IfOk, map};
ghost use Rattle.dg_changes.specs.EventChanges.{change_of, what_of};

use dg_graph::{Body, Change, Event, What};
use std::alloc::{AllocError, Global};

// What is asked for by the change that comes to this.
fn what_of(body: &Body) -> What
    ensures { result ≡ what_of body.now }
{
    match *body {
        Body::NodeAdded { id } => What::AddNode { id },
        Body::NodeRemoved { id } => What::RemoveNode { id },
        Body::EdgeAdded {
            directed,
            id,
            src,
            dst,
        } => What::AddEdge {
            directed,
            id,
            src,
            dst,
        },
        Body::EdgeRemoved { id, .. } => What::RemoveEdge { id },
        Body::NodeAttr { key, id, new, .. } => match new {
            Some(value) => What::SetNode { id, key, value },
            None => What::UnsetNode { id, key },
        },
        Body::EdgeAttr { key, id, new, .. } => match new {
            Some(value) => What::SetEdge { id, key, value },
            None => What::UnsetEdge { id, key },
        },
        Body::Message { src, dst, value } => What::Message { src, dst, value },
    }
}

/// The changes that come to the events, one after another. An `Err` says that memory ran out.
pub fn changes_of(alloc: Global, events: &[Event]) -> Result<Vec<Change>, AllocError>
    ensures { IfOk result (λ changes. changes.items ≡ map change_of events.now) }
{
    let mut changes = Vec::with_capacity(alloc, events.len())?;
    for event in events {
        changes.push(Change {
            time: event.time,
            what: what_of(&event.body),
        })?;
    }
    Ok(changes)
}
