//! Searches in the elements of a set, which stand in their order.
ghost use Rattle.std.specs.Prelude.{◌≡◌, ℕ, ◌<◌, ◌≤◌, ◌&&◌, length, is_some, slice_index_or, IsTrue};
ghost use Rattle.std.specs.List.{count_by};
ghost use Rattle.dg_graph.specs.declared.element.Element.{Element};
ghost use Rattle.dg_graph.specs.Elements.{IsSet, before};
ghost use Rattle.dg_current.specs.ElementIds.{at};
ghost use Rattle.dg_current.specs.Sorted.{IsFirstFrom, least, least_value_at, is_value_at};

use crate::element_id::ElementId;
use dg_graph::Element;

/// The least element with the id.
pub(crate) fn least(id: ElementId) -> Element
    ensures { result ≡ least id }
{
    match id {
        ElementId::Node(id) => Element::Node { id },
        ElementId::Edge(id) => Element::Edge {
            id,
            src: 0,
            dst: 0,
            directed: false,
        },
        ElementId::NodeValue { key, id } => Element::NodeAttr { id, key, value: 0 },
        ElementId::EdgeValue { key, id } => Element::EdgeAttr { id, key, value: 0 },
        ElementId::Message => Element::Message {
            src: 0,
            dst: 0,
            value: 0,
        },
    }
}

/// The index of the first item that is not before the element.
pub(crate) fn first_from(items: &[Element], element: &Element) -> usize
    requires { IsSet items.now }
    ensures { IsFirstFrom element.now items.now result }
{
    match items.binary_search(element) {
        Ok(index) => index,
        Err(index) => index,
    }
}

// Whether the item is before the least element with the id. That is not made: only what it is compared by is looked at.
fn is_before(item: &Element, id: ElementId) -> bool
    ensures { result ≡ before item.now (least id) }
{
    match (id, *item) {
        (ElementId::Node(id), Element::Node { id: item_id })
        | (ElementId::Edge(id), Element::Edge { id: item_id, .. }) => item_id < id,
        (
            ElementId::NodeValue { key, id },
            Element::NodeAttr {
                id: item_id,
                key: item_key,
                ..
            },
        )
        | (
            ElementId::EdgeValue { key, id },
            Element::EdgeAttr {
                id: item_id,
                key: item_key,
                ..
            },
        ) => item_id < id || item_id == id && item_key < key,
        (ElementId::Edge(_), Element::Node { .. })
        | (ElementId::NodeValue { .. }, Element::Node { .. } | Element::Edge { .. }) => true,
        (ElementId::EdgeValue { .. } | ElementId::Message, Element::Message { .. }) => false,
        (ElementId::EdgeValue { .. } | ElementId::Message, _) => true,
        _ => false,
    }
}

/// The index of the first item that is not before the least element with the id, where the items up to the index
/// `from` are before it: it passes over them, and goes on from there, one item after another.
pub(crate) fn next_from(items: &[Element], from: usize, id: ElementId) -> usize
    requires set { IsSet items.now }
    requires within { from ≤ length items.now }
    requires below { (k : ℕ) (d : Element) → k < from → IsTrue (before (slice_index_or items.now k d) (least id)) }
    ensures { IsFirstFrom (least id) items.now result }
{
    for index in from..items.len() {
        if !is_before(&items[index], id) {
            return index;
        }
    }
    items.len()
}

/// The item with the id, by the index of the first one that is not before the least element with it.
pub(crate) fn found_at(items: &[Element], index: usize, id: ElementId) -> Option<Element>
    requires set { IsSet items.now }
    requires first { IsFirstFrom (least id) items.now index }
    ensures { result ≡ at items.now id }
{
    if index < items.len() && ElementId::of(&items[index]) == id {
        Some(items[index])
    } else {
        None
    }
}

/// The item with the id.
pub(crate) fn find(items: &[Element], id: ElementId) -> Option<Element>
    requires { IsSet items.now }
    ensures { result ≡ at items.now id }
{
    found_at(items, first_from(items, &least(id)), id)
}

// The first value that can stand at the element with the id.
fn first_value(id: ElementId) -> Element
    ensures { result ≡ least_value_at id }
{
    match id {
        ElementId::Node(id) | ElementId::NodeValue { id, .. } => Element::NodeAttr {
            id,
            key: 0,
            value: 0,
        },
        ElementId::Edge(id) | ElementId::EdgeValue { id, .. } => Element::EdgeAttr {
            id,
            key: 0,
            value: 0,
        },
        ElementId::Message => Element::NodeAttr {
            id: 0,
            key: 0,
            value: 0,
        },
    }
}

// Whether the element is a value at the one with the id.
fn is_value_at(id: ElementId, element: &Element) -> bool
    ensures { result ≡ is_value_at id element.now }
{
    match (id, *element) {
        (ElementId::Node(holder), Element::NodeAttr { id, .. })
        | (ElementId::Edge(holder), Element::EdgeAttr { id, .. }) => id == holder,
        _ => false,
    }
}

/// How many values stand at the element with the id: they follow one another.
pub(crate) fn count_values(items: &[Element], id: ElementId) -> usize
    requires { IsSet items.now }
    ensures { result ≡ count_by (is_value_at id) items.now }
{
    let first = first_from(items, &first_value(id));
    items[first..].partition_point(|item| is_value_at(id, item))
}
