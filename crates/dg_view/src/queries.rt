//! Answers from the members of a slot.
ghost use Rattle.std.specs.Prelude.{◌≡◌, IfOk, count_by};
ghost use Rattle.dg_pool.specs.Graphs.{slot_graph};
ghost use Rattle.dg_pool.specs.Slots.{IsLive};
ghost use Rattle.dg_pool.specs.Sweeps.{members_as};
ghost use Rattle.dg_query.specs.Queries.{is_an_edge, neighbours_of, degree_of, values_of, attribute_of};
ghost use Rattle.dg_view.specs.EdgeEnds.{IsAdjacencyOf};

use crate::elements::{edge_at, value_at, value_of_key};
use crate::ends::{EdgeEnd, push_ends};
use crate::walk::{FIRST_ATTRIBUTE, FIRST_EDGE, behind_key, behind_node, seek};
use dg_graph::Element;
use dg_pool::{Pool, Slot};
use dg_query::{Counts, KeyValue, Neighbour};
use std::alloc::{AllocError, Global};

// How many elements there are.
fn sum(counts: Counts) -> u64 {
    counts
        .nodes
        .saturating_add(counts.edges)
        .saturating_add(counts.node_attrs)
        .saturating_add(counts.edge_attrs)
        .saturating_add(counts.messages)
}

/// The members.
pub(crate) fn list(alloc: Global, pool: &Pool, slot: Slot) -> Result<Vec<Element>, AllocError>
    requires { IsLive pool.now slot }
    ensures { IfOk result (λ list. list.items ≡ members_as (slot_graph pool.now slot.0)) }
{
    let mut list = Vec::with_capacity(alloc, sum(pool.counts(slot)) as usize)?;
    let mut at = pool.first();
    while let Some((element, behind)) = pool.next_member(slot, at) {
        list.push(element)?;
        at = behind;
    }
    Ok(list)
}

/// The edges at a node.
pub(crate) fn neighbours(
    alloc: Global,
    pool: &Pool,
    slot: Slot,
    node: u64,
) -> Result<Vec<Neighbour>, AllocError>
    requires { IsLive pool.now slot }
    ensures { IfOk result (λ list. list.items ≡ neighbours_of (members_as (slot_graph pool.now slot.0)) node) }
{
    let mut list = Vec::new(alloc);
    let mut at = seek(pool, slot, &FIRST_EDGE);
    while let Some((element, behind)) = pool.next_member_up_to(slot, at, &FIRST_ATTRIBUTE) {
        if let Some(edge) = edge_at(node, &element) {
            list.push(edge)?;
        }
        at = behind;
    }
    Ok(list)
}

// How many edges there are.
fn edges(pool: &Pool, slot: Slot) -> u64
    requires { IsLive pool.now slot }
    ensures { result ≡ count_by is_an_edge (members_as (slot_graph pool.now slot.0)) }
{
    pool.counts(slot).edges
}

/// How many edges a node has.
pub(crate) fn degree(pool: &Pool, slot: Slot, node: u64) -> u64
    requires { IsLive pool.now slot }
    ensures { result ≡ degree_of (members_as (slot_graph pool.now slot.0)) node }
{
    // a node has no more edges than the graph, so the sum fits
    let _most = edges(pool, slot);
    let mut degree = 0;
    let mut at = seek(pool, slot, &FIRST_EDGE);
    while let Some((element, behind)) = pool.next_member_up_to(slot, at, &FIRST_ATTRIBUTE) {
        if edge_at(node, &element).is_some() {
            degree += 1;
        }
        at = behind;
    }
    degree
}

/// The edges at their ends, in their order.
pub(crate) fn ends(alloc: Global, pool: &Pool, slot: Slot) -> Result<Vec<EdgeEnd>, AllocError>
    requires { IsLive pool.now slot }
    ensures { IfOk result (λ ends. IsAdjacencyOf (members_as (slot_graph pool.now slot.0)) ends.items) }
{
    let mut ends = Vec::with_capacity(alloc, edges(pool, slot).saturating_mul(2) as usize)?;
    let mut at = seek(pool, slot, &FIRST_EDGE);
    while let Some((element, behind)) = pool.next_member_up_to(slot, at, &FIRST_ATTRIBUTE) {
        push_ends(&mut ends, &element)?;
        at = behind;
    }
    Ok(ends)
}

/// The attributes of a node.
pub(crate) fn values(
    alloc: Global,
    pool: &Pool,
    slot: Slot,
    node: u64,
) -> Result<Vec<KeyValue>, AllocError>
    requires { IsLive pool.now slot }
    ensures { IfOk result (λ list. list.items ≡ values_of (members_as (slot_graph pool.now slot.0)) node) }
{
    let first = Element::NodeAttr {
        id: node,
        key: 0,
        value: 0,
    };
    let end = behind_node(node);
    let mut list = Vec::new(alloc);
    let mut at = seek(pool, slot, &first);
    while let Some((element, behind)) = pool.next_member_up_to(slot, at, &end) {
        if let Some(value) = value_at(node, &element) {
            list.push(value)?;
        }
        at = behind;
    }
    Ok(list)
}

/// The least value of a key at a node.
pub(crate) fn attribute(pool: &Pool, slot: Slot, node: u64, key: u32) -> Option<u32>
    requires { IsLive pool.now slot }
    ensures { result ≡ attribute_of (members_as (slot_graph pool.now slot.0)) node key }
{
    let first = Element::NodeAttr {
        id: node,
        key,
        value: 0,
    };
    let at = seek(pool, slot, &first);
    match pool.next_member_up_to(slot, at, &behind_key(node, key)) {
        Some((element, _)) => value_of_key(node, key, &element),
        None => None,
    }
}
