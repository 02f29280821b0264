//! Whether a set is a graph, by one walk over its elements in their order.
ghost use Rattle.std.specs.Prelude.{◌≡◌, ◌↔◌, ◌==◌, true, IfOk, IsTrue};
ghost use Rattle.std.specs.List.{list_any, list_all};
ghost use Rattle.std.specs.List.Sorted.{IsNonDecreasing};
ghost use Rattle.dg_graph.specs.Elements.{IsSet};
ghost use Rattle.dg_graph.specs.Graph.{IsGraph, has_needs};
ghost use Rattle.dg_current.specs.ElementIds.{element_id_of, same_id};
ghost use Rattle.dg_current.specs.Sorted.{AreNodesOf, OneOfEachId, has_ends, holder_of};

use crate::element_id::ElementId;
use crate::search::{first_from, found_at, least, next_from};
use dg_graph::Element;
use std::alloc::{AllocError, Global};

// Whether the element has the id of the one before it.
fn have_one_id(last: &Element, element: &Element) -> bool
    ensures { result ≡ same_id (element_id_of last.now) (element_id_of element.now) }
{
    match (*element, *last) {
        (Element::Node { id }, Element::Node { id: last_id }) => last_id == id,
        (Element::Edge { id, .. }, Element::Edge { id: last_id, .. }) => last_id == id,
        (
            Element::NodeAttr { id, key, .. },
            Element::NodeAttr {
                id: last_id,
                key: last_key,
                ..
            },
        ) => last_key == key && last_id == id,
        (
            Element::EdgeAttr { id, key, .. },
            Element::EdgeAttr {
                id: last_id,
                key: last_key,
                ..
            },
        ) => last_key == key && last_id == id,
        (Element::Message { .. }, Element::Message { .. }) => true,
        _ => false,
    }
}

// The id of the element that a value stands at.
fn holder_of(element: &Element) -> Option<ElementId>
    ensures { result ≡ holder_of element.now }
{
    match *element {
        Element::Node { .. } | Element::Edge { .. } | Element::Message { .. } => None,
        Element::NodeAttr { id, .. } => Some(ElementId::Node(id)),
        Element::EdgeAttr { id, .. } => Some(ElementId::Edge(id)),
    }
}

// The ids of the nodes among the items.
fn node_ids(alloc: Global, items: &[Element]) -> Result<Vec<u64>, AllocError>
    requires { IsSet items.now }
    ensures { IfOk result (λ nodes. AreNodesOf items.now nodes.items) }
{
    let mut nodes = Vec::with_capacity(alloc, first_from(items, &least(ElementId::Edge(0))))?;
    for element in items {
        match *element {
            Element::Node { id } => nodes.push(id)?,
            _ => break,
        }
    }
    Ok(nodes)
}

// Whether the id stands as far behind the first node as it is greater, as it does where none between them is
// missing.
fn stands_as_numbered(nodes: &[u64], id: u64) -> bool
    ensures { IsTrue result → list_any (λ node. node == id) nodes.now ≡ true }
{
    let Some(first) = nodes.first() else {
        return false;
    };
    match nodes.get(id.wrapping_sub(*first) as usize) {
        Some(node) => *node == id,
        None => false,
    }
}

// Whether the id is among those of the nodes. Most have the ids from one on, so one look is tried before a search.
fn is_node(nodes: &[u64], id: u64) -> bool
    requires { IsNonDecreasing nodes.now }
    ensures { result ≡ list_any (λ node. node == id) nodes.now }
{
    stands_as_numbered(nodes, id) || nodes.binary_search(&id).is_ok()
}

// Whether the ends of the element, where it is an edge, are among the nodes; no for a message, which no graph has.
fn has_ends(items: &[Element], nodes: &[u64], element: &Element) -> bool
    requires { AreNodesOf items.now nodes.now }
    ensures { result ≡ has_ends items.now element.now }
{
    match *element {
        Element::Edge { src, dst, .. } => is_node(nodes, src) && is_node(nodes, dst),
        Element::Message { .. } => false,
        _ => true,
    }
}

// Whether no two of the items have one id, and each has what it needs among them: an edge its ends, and a value what it
// stands at. Two with one id would be neighbours. What values stand at comes in the order of the values, so one walk over
// the nodes and edges beside theirs finds it.
fn are_sound(items: &[Element], nodes: &[u64]) -> bool
    requires set { IsSet items.now }
    requires nodes { AreNodesOf items.now nodes.now }
    ensures { IsTrue result ↔ (OneOfEachId items.now × (list_all (has_needs items.now) items.now ≡ true)) }
{
    let mut at = 0;
    for (index, element) in items.iter().enumerate() {
        if index > 0 && have_one_id(&items[index - 1], element) {
            return false;
        }
        let is_fed = match holder_of(element) {
            Some(id) => {
                at = next_from(items, at, id);
                found_at(items, at, id).is_some()
            }
            None => has_ends(items, nodes, element),
        };
        if !is_fed {
            return false;
        }
    }
    true
}

/// Whether the items are a graph. An `Err` says that memory ran out.
pub(crate) fn is_graph(alloc: Global, items: &[Element]) -> Result<bool, AllocError>
    requires { IsSet items.now }
    ensures { IfOk result (λ is. IsTrue is ↔ IsGraph items.now) }
{
    let nodes = node_ids(alloc, items)?;
    Ok(are_sound(items, &nodes))
}
