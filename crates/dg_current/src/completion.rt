//! The event that a change comes to in a graph, or the first reason against it.
ghost use Rattle.std.specs.Prelude.{◌≡◌, ◌&&◌, option_and_then};
ghost use Rattle.dg_graph.specs.declared.event.What.TheVariants as what;
ghost use Rattle.dg_graph.specs.CompletedChanges.{event_of};
ghost use Rattle.dg_graph.specs.Completion.{has_node, edge_of, node_value, edge_value, value_in, complete, is_found, is_value_change, is_change_of};

use crate::element_id::ElementId;
use crate::held_graph::HeldGraph;
use dg_graph::{
    Body, Change, Element, Event, REASON_EDGE_EXISTS, REASON_EDGE_IN_USE, REASON_NO_ATTRIBUTE,
    REASON_NO_EDGE, REASON_NO_END, REASON_NO_NODE, REASON_NODE_EXISTS, REASON_NODE_IN_USE,
    REASON_TIME, What,
};

/// The value in an element.
pub(crate) fn value_in(found: Option<Element>) -> Option<u32>
    ensures { result ≡ option_and_then value_in found }
{
    match found? {
        Element::NodeAttr { value, .. } | Element::EdgeAttr { value, .. } => Some(value),
        _ => None,
    }
}

/// Whether the node is in the graph.
pub(crate) fn has_node(graph: &HeldGraph, id: u64) -> bool
    ensures { result ≡ has_node graph.now.set id }
{
    graph.element_at(ElementId::Node(id)).is_some()
}

/// Whether both nodes are in the graph.
pub(crate) fn has_nodes(graph: &HeldGraph, src: u64, dst: u64) -> bool
    ensures { result ≡ (has_node graph.now.set src && has_node graph.now.set dst) }
{
    has_node(graph, src) && has_node(graph, dst)
}

/// The edge of this id.
pub(crate) fn edge_of(graph: &HeldGraph, id: u64) -> Option<Element>
    ensures { result ≡ edge_of graph.now.set id }
{
    graph.element_at(ElementId::Edge(id))
}

fn node_value(graph: &HeldGraph, id: u64, key: u32) -> Option<u32>
    ensures { result ≡ node_value graph.now.set id key }
{
    value_in(graph.element_at(ElementId::NodeValue { key, id }))
}

fn edge_value(graph: &HeldGraph, id: u64, key: u32) -> Option<u32>
    ensures { result ≡ edge_value graph.now.set id key }
{
    value_in(graph.element_at(ElementId::EdgeValue { key, id }))
}

/// The event that the change comes to in the graph, not before the earliest time. `Err` is the first
/// reason against it: one of the constants `REASON_..`.
pub(crate) fn event_of(earliest: u64, graph: &HeldGraph, change: &Change) -> Result<Event, u8>
    ensures { result ≡ event_of earliest graph.now.set change.now }
{
    if change.time < earliest {
        return Err(REASON_TIME);
    }
    let body = complete(graph, &change.what)?;
    Ok(Event {
        time: change.time,
        body,
    })
}

// What changes in the graph, or the first reason against it.
fn complete(graph: &HeldGraph, what: &What) -> Result<Body, u8>
    ensures { result ≡ complete what.now graph.now.set }
{
    match *what {
        What::AddNode { id } => add_node(graph, id),
        What::RemoveNode { id } => remove_node(graph, id),
        What::AddEdge {
            id,
            src,
            dst,
            directed,
        } => add_edge(graph, id, src, dst, directed),
        What::RemoveEdge { id } => remove_edge(graph, id),
        What::SetNode { id, key, value } => set_node(graph, id, key, value),
        What::UnsetNode { id, key } => unset_node(graph, id, key),
        What::SetEdge { id, key, value } => set_edge(graph, id, key, value),
        What::UnsetEdge { id, key } => unset_edge(graph, id, key),
        What::Message { src, dst, value } => message(graph, src, dst, value),
    }
}

fn add_node(graph: &HeldGraph, id: u64) -> Result<Body, u8>
    ensures { result ≡ complete (what.AddNode id) graph.now.set }
{
    if has_node(graph, id) {
        return Err(REASON_NODE_EXISTS);
    }
    Ok(Body::NodeAdded { id })
}

fn remove_node(graph: &HeldGraph, id: u64) -> Result<Body, u8>
    ensures { result ≡ complete (what.RemoveNode id) graph.now.set }
{
    if !has_node(graph, id) {
        return Err(REASON_NO_NODE);
    }
    if graph.is_needed(ElementId::Node(id)) {
        return Err(REASON_NODE_IN_USE);
    }
    Ok(Body::NodeRemoved { id })
}

fn add_edge(graph: &HeldGraph, id: u64, src: u64, dst: u64, directed: bool) -> Result<Body, u8>
    ensures { result ≡ complete (what.AddEdge directed id src dst) graph.now.set }
{
    if edge_of(graph, id).is_some() {
        return Err(REASON_EDGE_EXISTS);
    }
    if has_nodes(graph, src, dst) {
        Ok(Body::EdgeAdded {
            id,
            src,
            dst,
            directed,
        })
    } else {
        Err(REASON_NO_END)
    }
}

fn remove_edge(graph: &HeldGraph, id: u64) -> Result<Body, u8>
    ensures { result ≡ complete (what.RemoveEdge id) graph.now.set }
{
    let Some(
        Element::Edge {
            id: edge,
            src,
            dst,
            directed,
        },
    ) = edge_of(graph, id)
    else {
        return Err(REASON_NO_EDGE);
    };
    if graph.is_needed(ElementId::Edge(id)) {
        return Err(REASON_EDGE_IN_USE);
    }
    Ok(Body::EdgeRemoved {
        id: edge,
        src,
        dst,
        directed,
    })
}

fn set_node(graph: &HeldGraph, id: u64, key: u32, value: u32) -> Result<Body, u8>
    ensures { result ≡ complete (what.SetNode id key value) graph.now.set }
{
    if !has_node(graph, id) {
        return Err(REASON_NO_NODE);
    }
    let old = node_value(graph, id, key);
    Ok(Body::NodeAttr {
        id,
        key,
        old,
        new: Some(value),
    })
}

fn unset_node(graph: &HeldGraph, id: u64, key: u32) -> Result<Body, u8>
    ensures { result ≡ complete (what.UnsetNode id key) graph.now.set }
{
    if !has_node(graph, id) {
        return Err(REASON_NO_NODE);
    }
    match node_value(graph, id, key) {
        Some(old) => Ok(Body::NodeAttr {
            id,
            key,
            old: Some(old),
            new: None,
        }),
        None => Err(REASON_NO_ATTRIBUTE),
    }
}

fn set_edge(graph: &HeldGraph, id: u64, key: u32, value: u32) -> Result<Body, u8>
    ensures { result ≡ complete (what.SetEdge id key value) graph.now.set }
{
    if edge_of(graph, id).is_none() {
        return Err(REASON_NO_EDGE);
    }
    let old = edge_value(graph, id, key);
    Ok(Body::EdgeAttr {
        id,
        key,
        old,
        new: Some(value),
    })
}

fn unset_edge(graph: &HeldGraph, id: u64, key: u32) -> Result<Body, u8>
    ensures { result ≡ complete (what.UnsetEdge id key) graph.now.set }
{
    if edge_of(graph, id).is_none() {
        return Err(REASON_NO_EDGE);
    }
    match edge_value(graph, id, key) {
        Some(old) => Ok(Body::EdgeAttr {
            id,
            key,
            old: Some(old),
            new: None,
        }),
        None => Err(REASON_NO_ATTRIBUTE),
    }
}

fn message(graph: &HeldGraph, src: u64, dst: u64, value: u32) -> Result<Body, u8>
    ensures { result ≡ complete (what.Message src dst value) graph.now.set }
{
    if has_nodes(graph, src, dst) {
        Ok(Body::Message { src, dst, value })
    } else {
        Err(REASON_NO_END)
    }
}

/// Whether some change comes to this in the graph.
pub(crate) fn is_change_of(graph: &HeldGraph, body: &Body) -> bool
    ensures { result ≡ is_change_of graph.now.set body.now }
{
    match *body {
        Body::NodeAdded { id } => !has_node(graph, id),
        Body::NodeRemoved { id } => has_node(graph, id) && !graph.is_needed(ElementId::Node(id)),
        Body::EdgeAdded { id, src, dst, .. } => {
            edge_of(graph, id).is_none() && has_nodes(graph, src, dst)
        }
        Body::EdgeRemoved {
            id,
            src,
            dst,
            directed,
        } => {
            let edge = Element::Edge {
                id,
                src,
                dst,
                directed,
            };
            is_found(edge_of(graph, id), edge) && !graph.is_needed(ElementId::Edge(id))
        }
        Body::NodeAttr { id, key, old, new } => {
            has_node(graph, id) && is_value_change(node_value(graph, id, key), old, new)
        }
        Body::EdgeAttr { id, key, old, new } => {
            edge_of(graph, id).is_some() && is_value_change(edge_value(graph, id, key), old, new)
        }
        Body::Message { src, dst, .. } => has_nodes(graph, src, dst),
    }
}

// Whether the element that was found is this one.
fn is_found(found: Option<Element>, element: Element) -> bool
    ensures { result ≡ is_found found element }
{
    match found {
        Some(there) => there.cmp(&element).is_eq(),
        None => false,
    }
}

// Whether the value goes from the one that is there to another, or is taken away.
fn is_value_change(there: Option<u32>, old: Option<u32>, new: Option<u32>) -> bool
    ensures { result ≡ is_value_change there old new }
{
    old == there && (old.is_some() || new.is_some())
}
