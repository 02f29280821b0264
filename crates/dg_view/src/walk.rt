//! Where a walk over the members of a slot begins, and where it ends.
ghost use Rattle.std.specs.Prelude.{◌≡◌, true, Some, None};
ghost use Rattle.dg_graph.specs.declared.element.Element.{Element};
ghost use Rattle.dg_graph.specs.Elements.{IsSet, before};
ghost use Rattle.dg_pool.specs.Graphs.{slot_graph};
ghost use Rattle.dg_pool.specs.Listing.{members_from, not_before};
ghost use Rattle.dg_pool.specs.Sweeps.{members_as};
ghost use Rattle.dg_query.specs.Queries.{value_at};
ghost use Rattle.dg_view.specs.Walk.{NoneBefore, value_of_key};

use dg_graph::Element;
use dg_pool::{Cursor, Pool, Slot};

/// The first of all edges.
pub(crate) const FIRST_EDGE: Element = Element::Edge {
    id: 0,
    src: 0,
    dst: 0,
    directed: false,
};

/// The first of all attributes, behind which no edge comes.
pub(crate) const FIRST_ATTRIBUTE: Element = Element::NodeAttr {
    id: 0,
    key: 0,
    value: 0,
};

/// The cursor before the members that do not stand before this element.
pub(crate) fn seek(pool: &Pool, slot: Slot, element: &Element) -> Cursor
    ensures from { members_from pool.now slot.0 result ≡ not_before (members_as (slot_graph pool.now slot.0)) (Some element.now) }
    ensures rises { IsSet (members_from pool.now slot.0 result) }
    ensures low { NoneBefore element.now (members_from pool.now slot.0 result) }
{
    let _ = slot;
    pool.facts();
    pool.seek(element)
}

/// The first element that can come behind all attributes of the node.
pub(crate) fn behind_node(node: u64) -> Element
    ensures { (x : Element) → before result x ≡ true → value_at node x ≡ None }
{
    match node.checked_add(1) {
        Some(id) => Element::NodeAttr {
            id,
            key: 0,
            value: 0,
        },
        None => Element::EdgeAttr {
            id: 0,
            key: 0,
            value: 0,
        },
    }
}

/// The first element that can come behind all values of the key at the node.
pub(crate) fn behind_key(node: u64, key: u32) -> Element
    ensures { (x : Element) → before result x ≡ true → value_of_key node key x ≡ None }
{
    match key.checked_add(1) {
        Some(key) => Element::NodeAttr {
            id: node,
            key,
            value: 0,
        },
        None => behind_node(node),
    }
}
