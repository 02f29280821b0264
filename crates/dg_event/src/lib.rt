//! What an event means: the element that it removes and the element that it adds, the event that
//! leads back, and the column and the order of elements. docs/MODEL.md has the definitions.
#![tactic(auto)]

ghost use Rattle.std.specs.Prelude.{◌≡◌, List};
ghost use Rattle.dg_graph.specs.declared.element.Element.{Element};
ghost use Rattle.dg_graph.specs.Effect.{removed_by, added_by, forwards, backwards};
ghost use Rattle.dg_graph.specs.Elements.{element_cmp, column_of, asks};
ghost use Rattle.dg_event.specs.EffectLaws.{LeadsBack};

pub use dg_graph::{Body, Change, Column, Columns, Element, Event, Function, What};
use std::cmp::Ordering;

/// The element that the event removes, and the element that it adds. An attribute whose value goes
/// to itself removes and adds nothing, and neither does a message.
// It is laid into the loops over events, where the kind of an event tells which of the two there is.
#[inline(always)]
pub fn effect(event: &Event) -> (Option<Element>, Option<Element>)
    ensures removed { result.0 ≡ removed_by event.now.body }
    ensures added { result.1 ≡ added_by event.now.body }
{
    match event.body {
        Body::NodeAdded { id } => (None, Some(Element::Node { id })),
        Body::NodeRemoved { id } => (Some(Element::Node { id }), None),
        Body::EdgeAdded {
            id,
            src,
            dst,
            directed,
        } => (
            None,
            Some(Element::Edge {
                id,
                src,
                dst,
                directed,
            }),
        ),
        Body::EdgeRemoved {
            id,
            src,
            dst,
            directed,
        } => (
            Some(Element::Edge {
                id,
                src,
                dst,
                directed,
            }),
            None,
        ),
        Body::NodeAttr { old, new, .. } | Body::EdgeAttr { old, new, .. } if old == new => (
            None, None,
        ),
        Body::NodeAttr { id, key, old, new } => (
            old.map(|value| Element::NodeAttr { id, key, value }),
            new.map(|value| Element::NodeAttr { id, key, value }),
        ),
        Body::EdgeAttr { id, key, old, new } => (
            old.map(|value| Element::EdgeAttr { id, key, value }),
            new.map(|value| Element::EdgeAttr { id, key, value }),
        ),
        Body::Message { .. } => (None, None),
    }
}

/// The event that leads back: at the same instant, it adds what this one removes, and removes what
/// this one adds.
pub fn reverse(event: &Event) -> Event
    ensures time { result.time ≡ event.now.time }
    ensures removed { removed_by result.body ≡ added_by event.now.body }
    ensures added { added_by result.body ≡ removed_by event.now.body }
    ensures back { (set : List Element) → forwards set result ≡ backwards set event.now }
{
    let body = match event.body {
        Body::NodeAdded { id } => Body::NodeRemoved { id },
        Body::NodeRemoved { id } => Body::NodeAdded { id },
        Body::EdgeAdded {
            id,
            src,
            dst,
            directed,
        } => Body::EdgeRemoved {
            id,
            src,
            dst,
            directed,
        },
        Body::EdgeRemoved {
            id,
            src,
            dst,
            directed,
        } => Body::EdgeAdded {
            id,
            src,
            dst,
            directed,
        },
        Body::NodeAttr { id, key, old, new } => Body::NodeAttr {
            id,
            key,
            old: new,
            new: old,
        },
        Body::EdgeAttr { id, key, old, new } => Body::EdgeAttr {
            id,
            key,
            old: new,
            new: old,
        },
        Body::Message { src, dst, value } => Body::Message { src, dst, value },
    };
    Event {
        time: event.time,
        body,
    }
}

/// The column in which an element is kept and asked for.
pub fn column_of(element: &Element) -> Column
    ensures { result ≡ column_of element.now }
{
    match element {
        Element::Node { .. } | Element::Edge { .. } => Column::Structure,
        Element::NodeAttr { .. } => Column::NodeAttr,
        Element::EdgeAttr { .. } => Column::EdgeAttr,
        Element::Message { .. } => Column::Transient,
    }
}

/// Whether the columns have this one among them. Structure always is.
pub fn asks(cols: Columns, column: Column) -> bool
    ensures { result ≡ asks cols column }
{
    match column {
        Column::Structure => true,
        Column::NodeAttr => cols.nodes_attr,
        Column::EdgeAttr => cols.edges_attr,
        Column::Transient => cols.transient,
    }
}

/// The order of elements: by kind, and then by their fields in the order written.
#[inline(always)]
pub fn compare(x: &Element, y: &Element) -> Ordering
    ensures { result ≡ element_cmp x.now y.now }
{
    x.cmp(y)
}

/// The law of events: where an event can happen in a set, applying it forwards and then backwards
/// gives the set again.
pub fn leads_back()
    ensures { LeadsBack }
{}
