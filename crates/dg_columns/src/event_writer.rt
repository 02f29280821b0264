//! Writing an event column.

ghost use Rattle.std.specs.Prelude.{◌≡◌, ◌*◌, ◌^◌, ◌≤◌, ◌<◌, ◌++◌, length, All, IfOk, OnOk, IfSome};
ghost use Rattle.std.specs.List.{flat_map};
ghost use Rattle.dg_graph.specs.Columns.{two, four, eight, same_column, column_of_body, value_bytes, placed_bytes, placed_in, events_column};
ghost use Rattle.dg_columns.specs.Fields.{node_bytes, edge_bytes, value_field_bytes};
ghost use Rattle.dg_columns.specs.NamesInRange.{NamesFit};

use crate::delta_writer::message_bytes;
use crate::edge::{EdgeFields, edge_bytes, node_bytes};
use crate::event_fields::{ValueFields, body_size};
use crate::layout::{
    CHANGE_SIZE, COUNT_SIZE, EDGE_ADDED, EDGE_REMOVED, EDGE_SIZE, MESSAGE_SIZE, NODE_ADDED,
    NODE_REMOVED, NODE_SIZE, STAMP_SIZE,
};
use dg_graph::{Body, Column, Event};
use std::alloc::{AllocError, Global};

// How much is to be written.
#[derive(Clone, Copy)]
struct Measure {
    // the events of the column
    count: u32,
    // their bytes
    size: usize,
}

// Whether the event stands in the column.
fn stands_in(body: &Body, col: Column) -> bool
    ensures { result ≡ same_column (column_of_body body.now) col }
{
    match body {
        Body::NodeAdded { .. }
        | Body::NodeRemoved { .. }
        | Body::EdgeAdded { .. }
        | Body::EdgeRemoved { .. } => matches!(col, Column::Structure),
        Body::NodeAttr { .. } => matches!(col, Column::NodeAttr),
        Body::EdgeAttr { .. } => matches!(col, Column::EdgeAttr),
        Body::Message { .. } => matches!(col, Column::Transient),
    }
}

// How many events the column has, and their bytes.
fn measured(events: &[Event], col: Column) -> Measure
    requires { length events.now ≤ 65536 }
    ensures count { result.count ≡ length (placed_in col events.now) }
    ensures size { result.size ≤ 36 * length events.now }
{
    let mut count = 0;
    let mut size = 0;
    for event in events {
        if stands_in(&event.body, col) {
            count += 1;
            size += STAMP_SIZE + body_size(&event.body);
        }
    }
    Measure { count, size }
}

// The number that spells a value: 0 for none.
fn value_number(value: Option<u32>) -> u32
    requires { IfSome value (λ n. n < 2 ^ 30) }
    ensures { four result ≡ value_bytes value }
{
    match value {
        None => 0,
        Some(name) => name + 1,
    }
}

// The fields of a value's change.
fn change_bytes(value: ValueFields) -> [u8; CHANGE_SIZE]
    requires old { IfSome value.old (λ n. n < 2 ^ 30) }
    requires new { IfSome value.new (λ n. n < 2 ^ 30) }
    ensures { result ≡ value_field_bytes value }
{
    let mut bytes = [0; CHANGE_SIZE];
    bytes[..8].copy_from_slice(&value.id.to_be_bytes());
    bytes[8..12].copy_from_slice(&value.key.to_be_bytes());
    bytes[12..16].copy_from_slice(&value_number(value.old).to_be_bytes());
    bytes[16..].copy_from_slice(&value_number(value.new).to_be_bytes());
    bytes
}

// The position and the instant of an event.
fn stamp_bytes(position: u16, time: u64) -> [u8; STAMP_SIZE]
    ensures { result ≡ two position ++ eight time }
{
    let mut bytes = [0; STAMP_SIZE];
    bytes[..2].copy_from_slice(&position.to_be_bytes());
    bytes[2..].copy_from_slice(&time.to_be_bytes());
    bytes
}

// The event of a node.
fn node_event(position: u16, time: u64, kind: u8, id: u64) -> [u8; STAMP_SIZE + NODE_SIZE]
    ensures { result ≡ two position ++ (eight time ++ node_bytes kind id) }
{
    let mut bytes = [0; STAMP_SIZE + NODE_SIZE];
    bytes[..STAMP_SIZE].copy_from_slice(&stamp_bytes(position, time));
    bytes[STAMP_SIZE..].copy_from_slice(&node_bytes(kind, id));
    bytes
}

// The event of an edge.
fn edge_event(position: u16, time: u64, kind: u8, edge: EdgeFields) -> [u8; STAMP_SIZE + EDGE_SIZE]
    ensures { result ≡ two position ++ (eight time ++ edge_bytes kind edge) }
{
    let mut bytes = [0; STAMP_SIZE + EDGE_SIZE];
    bytes[..STAMP_SIZE].copy_from_slice(&stamp_bytes(position, time));
    bytes[STAMP_SIZE..].copy_from_slice(&edge_bytes(kind, edge));
    bytes
}

// The event of a value.
fn change_event(position: u16, time: u64, value: ValueFields) -> [u8; STAMP_SIZE + CHANGE_SIZE]
    requires old { IfSome value.old (λ n. n < 2 ^ 30) }
    requires new { IfSome value.new (λ n. n < 2 ^ 30) }
    ensures { result ≡ two position ++ (eight time ++ value_field_bytes value) }
{
    let mut bytes = [0; STAMP_SIZE + CHANGE_SIZE];
    bytes[..STAMP_SIZE].copy_from_slice(&stamp_bytes(position, time));
    bytes[STAMP_SIZE..].copy_from_slice(&change_bytes(value));
    bytes
}

// The event of a message.
fn message_event(
    position: u16,
    time: u64,
    src: u64,
    dst: u64,
    value: u32,
) -> [u8; STAMP_SIZE + MESSAGE_SIZE]
    ensures { result ≡ two position ++ (eight time ++ (eight src ++ (eight dst ++ four value))) }
{
    let mut bytes = [0; STAMP_SIZE + MESSAGE_SIZE];
    bytes[..STAMP_SIZE].copy_from_slice(&stamp_bytes(position, time));
    bytes[STAMP_SIZE..].copy_from_slice(&message_bytes(src, dst, value));
    bytes
}

// An event with its position.
fn write_placed(out: &mut Vec<u8>, position: u16, event: &Event) -> Result<(), AllocError>
    requires { NamesFit event.now.body }
    ensures { OnOk result (out.new.items ≡ out.old.items ++ placed_bytes (record { at = position; event = event.now })) }
{
    let time = event.time;
    match event.body {
        Body::NodeAdded { id } => {
            out.extend_from_slice(&node_event(position, time, NODE_ADDED, id))
        }
        Body::NodeRemoved { id } => {
            out.extend_from_slice(&node_event(position, time, NODE_REMOVED, id))
        }
        Body::EdgeAdded {
            id,
            src,
            dst,
            directed,
        } => out.extend_from_slice(&edge_event(
            position,
            time,
            EDGE_ADDED,
            EdgeFields {
                id,
                src,
                dst,
                directed,
            },
        )),
        Body::EdgeRemoved {
            id,
            src,
            dst,
            directed,
        } => out.extend_from_slice(&edge_event(
            position,
            time,
            EDGE_REMOVED,
            EdgeFields {
                id,
                src,
                dst,
                directed,
            },
        )),
        Body::NodeAttr { id, key, old, new } | Body::EdgeAttr { id, key, old, new } => {
            out.extend_from_slice(&change_event(position, time, ValueFields { id, key, old, new }))
        }
        Body::Message { src, dst, value } => {
            out.extend_from_slice(&message_event(position, time, src, dst, value))
        }
    }
}

// The events of the column, behind what was written before.
fn write_each(out: &mut Vec<u8>, events: &[Event], col: Column) -> Result<(), AllocError>
    requires few { length events.now ≤ 65536 }
    requires names { All (λ e. NamesFit e.body) events.now }
    ensures { OnOk result (out.new.items ≡ out.old.items ++ flat_map placed_bytes (placed_in col events.now)) }
{
    for (position, event) in events.iter().enumerate() {
        if stands_in(&event.body, col) {
            write_placed(out, position as u16, event)?;
        }
    }
    Ok(())
}

/// The column of a list of events: each event of the column with its position in the list, from 0. An
/// `Err` says that memory ran out.
pub fn write_events(alloc: Global, events: &[Event], col: Column) -> Result<Vec<u8>, AllocError>
    requires few { length events.now ≤ 65536 }
    requires names { All (λ e. NamesFit e.body) events.now }
    ensures { IfOk result (λ bytes. bytes.items ≡ events_column col events.now) }
{
    let Measure { count, size } = measured(events, col);
    if count == 0 {
        return Ok(Vec::new(alloc));
    }
    let mut out = Vec::with_capacity(alloc, COUNT_SIZE + size)?;
    out.extend_from_slice(&count.to_be_bytes())?;
    write_each(&mut out, events, col)?;
    Ok(out)
}
