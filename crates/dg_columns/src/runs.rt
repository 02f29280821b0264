//! Elements of one kind that stand one after another in a column without damage: nodes, the edges behind them, and
//! values. Each is compared with the one before it by its own fields alone.

ghost use Rattle.std.specs.Prelude.{◌≡◌, ◌+◌, ◌≤◌, ◌++◌, List, [], length, true, Ok, None, IfSome, IsTrue, vec_len, vec_capacity};
ghost use Rattle.dg_graph.specs.Elements.{before};
ghost use Rattle.dg_graph.specs.ColumnGrammar.{and_read, elements_at};
ghost use Rattle.dg_columns.specs.Added.{IsKept, added};
ghost use Rattle.dg_columns.specs.Fields.{next_element_at};
ghost use Rattle.dg_columns.specs.Runs.{node_of, edge_of, value_of, value_column, last_node, last_edge, last_value};

use crate::delta_reader::AttrFields;
use crate::edge::EdgeFields;
use crate::layout::{EDGE, EDGE_SIZE, NODE, NODE_SIZE, VALUE_SIZE};
use crate::sound_elements::{attr_here, edge_here, is_behind};
use dg_delta::Element;
use dg_graph::Column;
use dg_numbers::{byte_at, u64_at};

// The id of the node at the offset, which comes after the last one.
#[inline(always)]
fn next_node(bytes: &[u8], offset: usize, name_count: u32, last: Option<u64>) -> Option<u64>
    requires { offset ≤ length bytes.now }
    ensures node { IfSome result (λ id. next_element_at Column.Structure name_count bytes.now [] offset (last_node last) ≡ Ok (node_of id)) }
    ensures fits { IfSome result (λ id. offset + 9 ≤ length bytes.now) }
{
    if bytes.len() - offset < NODE_SIZE || byte_at(bytes, offset) != NODE {
        return None;
    }
    let id = u64_at(bytes, offset + 1);
    match last {
        Some(last) if id <= last => None,
        _ => Some(id),
    }
}

/// Adds the nodes that stand from the offset on, at most so many. Answers the offset behind them, how many elements are
/// left, and the last node's id.
pub(crate) fn push_nodes(
    items: &mut Vec<Element>,
    bytes: &[u8],
    start: usize,
    count: u32,
    name_count: u32,
) -> (usize, u32, Option<u64>)
    requires within { start ≤ length bytes.now }
    requires room { vec_len items.old + count ≤ vec_capacity items.old }
    ensures kept { IsKept items.old.items items.new.items }
    ensures elements { and_read (elements_at result.1 Column.Structure name_count bytes.now [] result.0 (last_node result.2)) (λ more. Ok (added items.old.items items.new.items ++ more.0, more.1)) ≡ elements_at count Column.Structure name_count bytes.now [] start None }
    ensures fits { result.0 ≤ length bytes.now }
    ensures room { vec_len items.new + result.1 ≤ vec_capacity items.new }
{
    let mut offset = start;
    let mut last = None;
    for read in 0..count {
        let Some(id) = next_node(bytes, offset, name_count, last) else {
            return (offset, count - read, last);
        };
        items.push_reserved(Element::Node { id });
        offset += NODE_SIZE;
        last = Some(id);
    }
    (offset, 0, last)
}

// The edge as an element.
#[inline(always)]
fn edge_of(edge: EdgeFields) -> Element
    ensures { result ≡ edge_of edge }
{
    Element::Edge {
        directed: edge.directed,
        id: edge.id,
        src: edge.src,
        dst: edge.dst,
    }
}

// Whether the edge comes after the other one. Few need more than their ids.
#[inline(always)]
fn is_edge_behind(last: EdgeFields, edge: EdgeFields) -> bool
    ensures { IsTrue result → before (edge_of last) (edge_of edge) ≡ true }
{
    last.id < edge.id || is_behind(&edge_of(last), edge_of(edge))
}

// The edge at the offset, which comes after the last one, behind nodes.
#[inline(always)]
fn next_edge(
    bytes: &[u8],
    offset: usize,
    name_count: u32,
    node: Option<u64>,
    last: Option<EdgeFields>,
) -> Option<EdgeFields>
    requires { offset ≤ length bytes.now }
    ensures edge { IfSome result (λ e. next_element_at Column.Structure name_count bytes.now [] offset (last_edge node last) ≡ Ok (edge_of e)) }
    ensures fits { IfSome result (λ e. offset + 26 ≤ length bytes.now) }
{
    if bytes.len() == offset || byte_at(bytes, offset) != EDGE {
        return None;
    }
    let edge = edge_here(bytes, offset + 1)?;
    match last {
        Some(last) if !is_edge_behind(last, edge) => None,
        _ => Some(edge),
    }
}

/// Adds so many edges from the offset on, behind the last node, if there is one. Answers the offset behind them; `None`
/// where something is wrong, or one is no edge.
pub(crate) fn push_edges(
    items: &mut Vec<Element>,
    bytes: &[u8],
    start: usize,
    count: u32,
    name_count: u32,
    node: Option<u64>,
) -> Option<usize>
    requires within { start ≤ length bytes.now }
    requires room { vec_len items.old + count ≤ vec_capacity items.old }
    ensures kept { IsKept items.old.items items.new.items }
    ensures elements { IfSome result (λ end. elements_at count Column.Structure name_count bytes.now [] start (last_node node) ≡ Ok (added items.old.items items.new.items, end)) }
    ensures fits { IfSome result (λ end. end ≤ length bytes.now) }
{
    let mut offset = start;
    let mut last = None;
    for _ in 0..count {
        let edge = next_edge(bytes, offset, name_count, node, last)?;
        items.push_reserved(edge_of(edge));
        offset += EDGE_SIZE;
        last = Some(edge);
    }
    Some(offset)
}

// The value as an element, of an edge or of a node.
#[inline(always)]
fn value_of(of_edge: bool, value: AttrFields) -> Element
    ensures { result ≡ value_of of_edge value }
{
    if of_edge {
        Element::EdgeAttr {
            id: value.id,
            key: value.key,
            value: value.value,
        }
    } else {
        Element::NodeAttr {
            id: value.id,
            key: value.key,
            value: value.value,
        }
    }
}

// Whether the value comes after the other one, of the same kind.
#[inline(always)]
fn is_value_behind(of_edge: bool, last: AttrFields, value: AttrFields) -> bool
    ensures { IsTrue result → before (value_of of_edge last) (value_of of_edge value) ≡ true }
{
    last.id < value.id
        || last.id == value.id
            && (last.key < value.key || last.key == value.key && last.value < value.value)
}

// The value at the offset, which comes after the last one.
#[inline(always)]
fn next_value(
    bytes: &[u8],
    offset: usize,
    name_count: u32,
    of_edge: bool,
    last: Option<AttrFields>,
) -> Option<AttrFields>
    requires { offset ≤ length bytes.now }
    ensures value { IfSome result (λ v. next_element_at (value_column of_edge) name_count bytes.now [] offset (last_value of_edge last) ≡ Ok (value_of of_edge v)) }
    ensures fits { IfSome result (λ v. offset + 16 ≤ length bytes.now) }
{
    let value = attr_here(bytes, offset, name_count)?;
    match last {
        Some(last) if !is_value_behind(of_edge, last, value) => None,
        _ => Some(value),
    }
}

/// Adds so many values from the offset on, of edges or of nodes. Answers the offset behind them; `None` where something
/// is wrong.
#[inline(always)]
pub(crate) fn push_values(
    items: &mut Vec<Element>,
    bytes: &[u8],
    start: usize,
    count: u32,
    name_count: u32,
    of_edge: bool,
) -> Option<usize>
    requires within { start ≤ length bytes.now }
    requires room { vec_len items.old + count ≤ vec_capacity items.old }
    ensures kept { IsKept items.old.items items.new.items }
    ensures elements { IfSome result (λ end. elements_at count (value_column of_edge) name_count bytes.now [] start None ≡ Ok (added items.old.items items.new.items, end)) }
    ensures fits { IfSome result (λ end. end ≤ length bytes.now) }
{
    let mut offset = start;
    let mut last = None;
    for _ in 0..count {
        let value = next_value(bytes, offset, name_count, of_edge, last)?;
        items.push_reserved(value_of(of_edge, value));
        offset += VALUE_SIZE;
        last = Some(value);
    }
    Some(offset)
}
