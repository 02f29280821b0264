//! The elements of a column that has no damage, read with one test of the room for each element. What
//! is wrong, and where, is not looked for here.

ghost use Rattle.std.specs.Prelude.{◌≡◌, ◌+◌, ◌≤◌, List, [], length, true, false, Ok, None, IfSome, IsTrue, vec_len, vec_capacity};
ghost use Rattle.std.specs.Option.{option_copied};
ghost use Rattle.dg_graph.specs.Elements.{IsSet, before, has};
ghost use Rattle.dg_graph.specs.ColumnGrammar.{element_size, elements_at, rises_from};
ghost use Rattle.dg_columns.specs.Added.{IsKept, added};
ghost use Rattle.dg_columns.specs.Fields.{attr_at, edge_fields_at, next_element_at};

use crate::delta_reader::AttrFields;
use crate::delta_writer::element_size;
use crate::edge::EdgeFields;
use crate::layout::{EDGE, EDGE_SIZE, NODE, NODE_SIZE, SMALLEST_ELEMENT, VALUE_SIZE};
use crate::runs::{push_edges, push_nodes, push_values};
use dg_delta::{Element, Set};
use dg_graph::Column;
use dg_numbers::{byte_at, u32_at, u64_at};
use std::alloc::Global;

// The fields of a value.
#[inline(always)]
pub(crate) fn attr_here(bytes: &[u8], offset: usize, name_count: u32) -> Option<AttrFields>
    requires { offset ≤ length bytes.now }
    ensures fields { IfSome result (λ v. attr_at name_count bytes.now offset ≡ Ok v) }
    ensures fits { IfSome result (λ v. offset + 16 ≤ length bytes.now) }
{
    if bytes.len() - offset < VALUE_SIZE {
        return None;
    }
    let id = u64_at(bytes, offset);
    let key = u32_at(bytes, offset + 8);
    let value = u32_at(bytes, offset + 12);
    if key < name_count && value < name_count {
        Some(AttrFields { id, key, value })
    } else {
        None
    }
}

// The fields of an edge, after its kind.
#[inline(always)]
pub(crate) fn edge_here(bytes: &[u8], offset: usize) -> Option<EdgeFields>
    requires { offset ≤ length bytes.now }
    ensures fields { IfSome result (λ e. edge_fields_at bytes.now offset ≡ Ok e) }
    ensures fits { IfSome result (λ e. offset + 25 ≤ length bytes.now) }
{
    if bytes.len() - offset < EDGE_SIZE - 1 {
        return None;
    }
    let id = u64_at(bytes, offset);
    let src = u64_at(bytes, offset + 8);
    let dst = u64_at(bytes, offset + 16);
    let directed = byte_at(bytes, offset + 24);
    if directed <= 1 {
        Some(EdgeFields {
            id,
            src,
            dst,
            directed: directed == 1,
        })
    } else {
        None
    }
}

// Whether the element is of the kind of the last one and has a greater id, or a greater key at the same id.
fn is_greater(last: &Element, element: Element) -> bool
    ensures { IsTrue result → before last.now element ≡ true }
{
    match (element, *last) {
        (Element::Node { id }, Element::Node { id: last_id }) => last_id < id,
        (Element::Edge { id, .. }, Element::Edge { id: last_id, .. }) => last_id < id,
        (
            Element::NodeAttr { id, key, .. },
            Element::NodeAttr {
                id: last_id,
                key: last_key,
                ..
            },
        ) => last_id < id || last_id == id && last_key < key,
        (
            Element::EdgeAttr { id, key, .. },
            Element::EdgeAttr {
                id: last_id,
                key: last_key,
                ..
            },
        ) => last_id < id || last_id == id && last_key < key,
        _ => false,
    }
}

// Whether the element comes after the last one, by all their fields. Few need that. The element is taken by value, so
// that it stands in memory for those alone.
#[inline(never)]
pub(crate) fn is_behind(last: &Element, element: Element) -> bool
    ensures { result ≡ before last.now element }
{
    last.cmp(&element).is_lt()
}

// The element, if it comes after the one before it, or there is none.
#[inline(always)]
fn if_behind(last: Option<&Element>, element: Element) -> Option<Element>
    ensures same { IfSome result (λ x. x ≡ element) }
    ensures rises { IfSome result (λ x. rises_from (option_copied last.entry) element ≡ true) }
{
    match last {
        Some(last) if !is_greater(last, element) && !is_behind(last, element) => None,
        _ => Some(element),
    }
}

// A node or an edge that comes after the last one.
#[inline(always)]
fn structure_here(
    bytes: &[u8],
    offset: usize,
    name_count: u32,
    last: Option<&Element>,
) -> Option<Element>
    requires { offset ≤ length bytes.now }
    ensures element { IfSome result (λ x. next_element_at Column.Structure name_count bytes.now [] offset (option_copied last.entry) ≡ Ok x) }
    ensures fits { IfSome result (λ x. offset + element_size x ≤ length bytes.now) }
{
    if bytes.len() - offset < NODE_SIZE {
        return None;
    }
    match byte_at(bytes, offset) {
        NODE => {
            let id = u64_at(bytes, offset + 1);
            if_behind(last, Element::Node { id })
        }
        EDGE => {
            let edge = edge_here(bytes, offset + 1)?;
            if_behind(
                last,
                Element::Edge {
                    id: edge.id,
                    src: edge.src,
                    dst: edge.dst,
                    directed: edge.directed,
                },
            )
        }
        _ => None,
    }
}

// The element at the offset, which comes after the last one.
#[inline(always)]
fn next_here(
    bytes: &[u8],
    offset: usize,
    col: Column,
    name_count: u32,
    last: Option<&Element>,
) -> Option<Element>
    requires { offset ≤ length bytes.now }
    ensures element { IfSome result (λ x. next_element_at col name_count bytes.now [] offset (option_copied last.entry) ≡ Ok x) }
    ensures fits { IfSome result (λ x. offset + element_size x ≤ length bytes.now) }
{
    match col {
        Column::Structure => structure_here(bytes, offset, name_count, last),
        Column::NodeAttr => {
            let attr = attr_here(bytes, offset, name_count)?;
            if_behind(
                last,
                Element::NodeAttr {
                    id: attr.id,
                    key: attr.key,
                    value: attr.value,
                },
            )
        }
        Column::EdgeAttr => {
            let attr = attr_here(bytes, offset, name_count)?;
            if_behind(
                last,
                Element::EdgeAttr {
                    id: attr.id,
                    key: attr.key,
                    value: attr.value,
                },
            )
        }
        Column::Transient => None,
    }
}

// Adds so many nodes and edges from the offset on: the nodes stand first.
fn push_structure(
    items: &mut Vec<Element>,
    bytes: &[u8],
    start: usize,
    count: u32,
    name_count: u32,
) -> Option<usize>
    requires within { start ≤ length bytes.now }
    requires room { vec_len items.old + count ≤ vec_capacity items.old }
    ensures kept { IsKept items.old.items items.new.items }
    ensures elements { IfSome result (λ end. elements_at count Column.Structure name_count bytes.now [] start None ≡ Ok (added items.old.items items.new.items, end)) }
    ensures fits { IfSome result (λ end. end ≤ length bytes.now) }
{
    let (offset, left, node) = push_nodes(items, bytes, start, count, name_count);
    push_edges(items, bytes, offset, left, name_count, node)
}

/// Adds so many elements from the offset on, each after the one before it, to the list. Answers the offset behind them;
/// `None` where something is wrong, or memory ran out. What the list had stands in front also then, and the first
/// element is not compared with it.
pub(crate) fn push_elements(
    items: &mut Vec<Element>,
    bytes: &[u8],
    start: usize,
    count: u32,
    col: Column,
    name_count: u32,
) -> Option<usize>
    requires { start ≤ length bytes.now }
    ensures kept { IsKept items.old.items items.new.items }
    ensures elements { IfSome result (λ end. elements_at count col name_count bytes.now [] start None ≡ Ok (added items.old.items items.new.items, end)) }
    ensures fits { IfSome result (λ end. end ≤ length bytes.now) }
{
    // The bytes bound what is reserved: the count is not trusted.
    let room = count as usize;
    if room > bytes.len() / SMALLEST_ELEMENT {
        return None;
    }
    items.reserve(room).ok()?;
    match col {
        Column::Structure => push_structure(items, bytes, start, count, name_count),
        Column::NodeAttr => push_values(items, bytes, start, count, name_count, false),
        Column::EdgeAttr => push_values(items, bytes, start, count, name_count, true),
        Column::Transient => None,
    }
}

/// So many elements as a set, and the offset behind them.
pub(crate) fn set_here(
    alloc: Global,
    bytes: &[u8],
    start: usize,
    count: u32,
    col: Column,
    name_count: u32,
) -> Option<(Set, usize)>
    requires { start ≤ length bytes.now }
    ensures elements { IfSome result (λ p. elements_at count col name_count bytes.now [] start None ≡ Ok (p.0, p.1)) }
    ensures fits { IfSome result (λ p. p.1 ≤ length bytes.now) }
{
    let mut items = Vec::new(alloc);
    let end = push_elements(&mut items, bytes, start, count, col, name_count)?;
    Some((Set::from_rising(items), end))
}

// Whether the element is not among the others.
fn is_new(element: &Element, others: &Set) -> bool
    ensures { IsTrue result → has others.now element.now ≡ false }
{
    !others.has(element)
}

/// The offset behind so many elements that each come after the one before and are not among the
/// others. Nothing is kept of them.
pub(crate) fn end_here(
    bytes: &[u8],
    start: usize,
    count: u32,
    col: Column,
    name_count: u32,
    others: &Set,
) -> Option<usize>
    requires { start ≤ length bytes.now }
    ensures elements { IfSome result (λ end. (list : List Element) × (elements_at count col name_count bytes.now others.now start None ≡ Ok (list, end))) }
    ensures fits { IfSome result (λ end. end ≤ length bytes.now) }
{
    let mut offset = start;
    let mut last: Option<Element> = None;
    for _ in 0..count {
        let element = next_here(bytes, offset, col, name_count, last.as_ref())?;
        if !is_new(&element, others) {
            return None;
        }
        offset += element_size(&element);
        last = Some(element);
    }
    Some(offset)
}
