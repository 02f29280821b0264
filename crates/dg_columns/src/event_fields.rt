//! The fields of an event after its position and instant.

ghost use Rattle.std.specs.Prelude.{◌≡◌, ◌+◌, ◌≤◌, length, OnOk, IfOk};
ghost use Rattle.dg_graph.specs.ColumnGrammar.{body_at, body_size, value_of};
ghost use Rattle.dg_columns.specs.ReadOutcome.{IsReadAs};
ghost use Rattle.dg_columns.specs.Fields.{message_fields_at, value_fields_at};

use crate::edge::edge_at;
use crate::fault::ReadFault;
use crate::layout::{
    CHANGE_SIZE, EDGE_ADDED, EDGE_REMOVED, EDGE_SIZE, MESSAGE_SIZE, NODE_ADDED, NODE_REMOVED,
    NODE_SIZE,
};
use crate::numbers::{byte_at, name_at, new_at, old_at, u64_at};
use dg_graph::{Body, Column};

/// A value's change without its kind.
#[derive(Clone, Copy)]
pub(crate) struct ValueFields {
    pub(crate) id: u64,
    pub(crate) key: u32,
    pub(crate) old: Option<u32>,
    pub(crate) new: Option<u32>,
}

/// A message without its kind.
#[derive(Clone, Copy)]
pub(crate) struct MessageFields {
    pub(crate) src: u64,
    pub(crate) dst: u64,
    pub(crate) value: u32,
}

/// The bytes that a body takes in its column.
pub(crate) fn body_size(body: &Body) -> usize
    ensures { result ≡ body_size body.now }
{
    match body {
        Body::NodeAdded { .. } | Body::NodeRemoved { .. } => NODE_SIZE,
        Body::EdgeAdded { .. } | Body::EdgeRemoved { .. } => EDGE_SIZE,
        Body::NodeAttr { .. } | Body::EdgeAttr { .. } => CHANGE_SIZE,
        Body::Message { .. } => MESSAGE_SIZE,
    }
}

// The value that a number spells: none, or the name of the number less 1.
fn value_of(number: u32) -> Option<u32>
    ensures { result ≡ value_of number }
{
    if number == 0 { None } else { Some(number - 1) }
}

/// The fields of a value's change.
pub(crate) fn value_at(
    bytes: &[u8],
    offset: usize,
    name_count: u32,
) -> Result<ValueFields, ReadFault>
    requires { offset ≤ length bytes.now }
    ensures fields { IsReadAs (λ value. value) result (value_fields_at name_count bytes.now offset) }
    ensures fits { OnOk result (offset + 20 ≤ length bytes.now) }
{
    let id = u64_at(bytes, offset)?;
    let key = name_at(bytes, offset + 8, name_count)?;
    let old = old_at(bytes, offset + 12, name_count)?;
    let new = new_at(bytes, offset + 16, name_count, old)?;
    Ok(ValueFields {
        id,
        key,
        old: value_of(old),
        new: value_of(new),
    })
}

/// The fields of a message.
pub(crate) fn message_at(
    bytes: &[u8],
    offset: usize,
    name_count: u32,
) -> Result<MessageFields, ReadFault>
    requires { offset ≤ length bytes.now }
    ensures fields { IsReadAs (λ m. m) result (message_fields_at name_count bytes.now offset) }
    ensures fits { OnOk result (offset + 20 ≤ length bytes.now) }
{
    let src = u64_at(bytes, offset)?;
    let dst = u64_at(bytes, offset + 8)?;
    let value = name_at(bytes, offset + 16, name_count)?;
    Ok(MessageFields { src, dst, value })
}

// What a structure event changes.
fn structure_at(bytes: &[u8], offset: usize, name_count: u32) -> Result<Body, ReadFault>
    requires { offset ≤ length bytes.now }
    ensures body { IsReadAs (λ body. body) result (body_at Column.Structure name_count bytes.now offset) }
    ensures fits { IfOk result (λ body. offset + body_size body ≤ length bytes.now) }
{
    let kind = byte_at(bytes, offset, NODE_ADDED, EDGE_REMOVED)?;
    let offset = offset + 1;
    match kind {
        NODE_ADDED => {
            let id = u64_at(bytes, offset)?;
            Ok(Body::NodeAdded { id })
        }
        NODE_REMOVED => {
            let id = u64_at(bytes, offset)?;
            Ok(Body::NodeRemoved { id })
        }
        EDGE_ADDED => {
            let edge = edge_at(bytes, offset)?;
            Ok(Body::EdgeAdded {
                id: edge.id,
                src: edge.src,
                dst: edge.dst,
                directed: edge.directed,
            })
        }
        _ => {
            let edge = edge_at(bytes, offset)?;
            Ok(Body::EdgeRemoved {
                id: edge.id,
                src: edge.src,
                dst: edge.dst,
                directed: edge.directed,
            })
        }
    }
}

/// What an event of the column changes.
pub(crate) fn body_at(
    bytes: &[u8],
    offset: usize,
    col: Column,
    name_count: u32,
) -> Result<Body, ReadFault>
    requires { offset ≤ length bytes.now }
    ensures body { IsReadAs (λ body. body) result (body_at col name_count bytes.now offset) }
    ensures fits { IfOk result (λ body. offset + body_size body ≤ length bytes.now) }
{
    match col {
        Column::Structure => structure_at(bytes, offset, name_count),
        Column::NodeAttr => {
            let value = value_at(bytes, offset, name_count)?;
            Ok(Body::NodeAttr {
                id: value.id,
                key: value.key,
                old: value.old,
                new: value.new,
            })
        }
        Column::EdgeAttr => {
            let value = value_at(bytes, offset, name_count)?;
            Ok(Body::EdgeAttr {
                id: value.id,
                key: value.key,
                old: value.old,
                new: value.new,
            })
        }
        Column::Transient => {
            let message = message_at(bytes, offset, name_count)?;
            Ok(Body::Message {
                src: message.src,
                dst: message.dst,
                value: message.value,
            })
        }
    }
}
