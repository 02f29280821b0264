//! Writing a delta's column.

ghost use Rattle.std.specs.Prelude.{◌≡◌, ◌*◌, ◌^◌, ◌≤◌, ◌<◌, ◌++◌, length, IfOk, OnOk};
ghost use Rattle.std.specs.List.{flat_map};
ghost use Rattle.dg_graph.specs.Elements.{column_of};
ghost use Rattle.dg_graph.specs.Columns.{four, eight, same_column, element_bytes, in_column, part_bytes, delta_column};
ghost use Rattle.dg_graph.specs.ColumnGrammar.{element_size};

use crate::edge::{EdgeFields, edge_bytes, node_bytes};
use crate::layout::{COUNT_SIZE, EDGE, EDGE_SIZE, MESSAGE_SIZE, NODE, NODE_SIZE, VALUE_SIZE};
use dg_delta::{Delta, Element};
use dg_graph::Column;
use std::alloc::{AllocError, Global};

// How much of a set is to be written.
#[derive(Clone, Copy)]
struct Part {
    // the elements of the column
    count: u32,
    // their bytes
    size: usize,
}

/// The bytes that an element takes in its column.
pub(crate) fn element_size(element: &Element) -> usize
    ensures { result ≡ element_size element.now }
{
    match element {
        Element::Node { .. } => NODE_SIZE,
        Element::Edge { .. } => EDGE_SIZE,
        Element::NodeAttr { .. } | Element::EdgeAttr { .. } => VALUE_SIZE,
        Element::Message { .. } => MESSAGE_SIZE,
    }
}

// Whether the element stands in the column.
fn stands_in(element: &Element, col: Column) -> bool
    ensures { result ≡ same_column (column_of element.now) col }
{
    match element {
        Element::Node { .. } | Element::Edge { .. } => matches!(col, Column::Structure),
        Element::NodeAttr { .. } => matches!(col, Column::NodeAttr),
        Element::EdgeAttr { .. } => matches!(col, Column::EdgeAttr),
        Element::Message { .. } => matches!(col, Column::Transient),
    }
}

// How many elements the column has of the set, and their bytes.
fn part_of(elements: &[Element], col: Column) -> Part
    requires { length elements.now < 2 ^ 32 }
    ensures count { result.count ≡ length (in_column col elements.now) }
    ensures size { result.size ≤ 26 * length elements.now }
{
    let mut count = 0;
    let mut size = 0;
    for element in elements {
        if stands_in(element, col) {
            count += 1;
            size += element_size(element);
        }
    }
    Part { count, size }
}

// The fields of a value.
fn attr_bytes(id: u64, key: u32, value: u32) -> [u8; VALUE_SIZE]
    ensures { result ≡ eight id ++ (four key ++ four value) }
{
    let mut bytes = [0; VALUE_SIZE];
    bytes[..8].copy_from_slice(&id.to_be_bytes());
    bytes[8..12].copy_from_slice(&key.to_be_bytes());
    bytes[12..].copy_from_slice(&value.to_be_bytes());
    bytes
}

/// The fields of a message. No delta of an index has one.
pub(crate) fn message_bytes(src: u64, dst: u64, value: u32) -> [u8; MESSAGE_SIZE]
    ensures { result ≡ eight src ++ (eight dst ++ four value) }
{
    let mut bytes = [0; MESSAGE_SIZE];
    bytes[..8].copy_from_slice(&src.to_be_bytes());
    bytes[8..16].copy_from_slice(&dst.to_be_bytes());
    bytes[16..].copy_from_slice(&value.to_be_bytes());
    bytes
}

// An element, without what its column says of it.
fn write_element(out: &mut Vec<u8>, element: &Element) -> Result<(), AllocError>
    ensures { OnOk result (out.new.items ≡ out.old.items ++ element_bytes element.now) }
{
    match *element {
        Element::Node { id } => out.extend_from_slice(&node_bytes(NODE, id)),
        Element::Edge {
            id,
            src,
            dst,
            directed,
        } => out.extend_from_slice(&edge_bytes(
            EDGE,
            EdgeFields {
                id,
                src,
                dst,
                directed,
            },
        )),
        Element::NodeAttr { id, key, value } | Element::EdgeAttr { id, key, value } => {
            out.extend_from_slice(&attr_bytes(id, key, value))
        }
        Element::Message { src, dst, value } => {
            out.extend_from_slice(&message_bytes(src, dst, value))
        }
    }
}

// The elements of the column, behind what was written before.
fn write_elements(out: &mut Vec<u8>, elements: &[Element], col: Column) -> Result<(), AllocError>
    ensures { OnOk result (out.new.items ≡ out.old.items ++ flat_map element_bytes (in_column col elements.now)) }
{
    for element in elements {
        if stands_in(element, col) {
            write_element(out, element)?;
        }
    }
    Ok(())
}

// The count of the column's elements, and the elements.
fn write_part(
    out: &mut Vec<u8>,
    elements: &[Element],
    col: Column,
    count: u32,
) -> Result<(), AllocError>
    requires { count ≡ length (in_column col elements.now) }
    ensures { OnOk result (out.new.items ≡ out.old.items ++ part_bytes (in_column col elements.now)) }
{
    out.extend_from_slice(&count.to_be_bytes())?;
    write_elements(out, elements, col)
}

/// The column of a delta: its elements of that column, first those to take out and then those to put
/// in. An `Err` says that memory ran out.
pub fn write_delta(alloc: Global, delta: &Delta, col: Column) -> Result<Vec<u8>, AllocError>
    requires minus { length delta.now.minus < 2 ^ 32 }
    requires plus { length delta.now.plus < 2 ^ 32 }
    ensures { IfOk result (λ bytes. bytes.items ≡ delta_column col delta.now) }
{
    let minus = delta.minus().items();
    let plus = delta.plus().items();
    let out_part = part_of(minus, col);
    let in_part = part_of(plus, col);
    if out_part.count == 0 && in_part.count == 0 {
        return Ok(Vec::new(alloc));
    }
    let size = 2 * COUNT_SIZE + out_part.size + in_part.size;
    let mut out = Vec::with_capacity(alloc, size)?;
    write_part(&mut out, minus, col, out_part.count)?;
    write_part(&mut out, plus, col, in_part.count)?;
    Ok(out)
}
