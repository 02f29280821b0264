//! Nodes and edges, which events and elements spell alike.

ghost use Rattle.std.specs.Prelude.{◌≡◌, ◌+◌, ◌≤◌, length, OnOk};
ghost use Rattle.dg_columns.specs.ReadOutcome.{IsReadAs};
ghost use Rattle.dg_columns.specs.Fields.{edge_fields_at, node_bytes, edge_bytes};

use crate::fault::ReadFault;
use crate::layout::{EDGE_SIZE, NODE_SIZE};
use crate::numbers::{byte_at, u64_at};

/// An edge without its kind.
#[derive(Clone, Copy)]
pub(crate) struct EdgeFields {
    pub(crate) id: u64,
    pub(crate) src: u64,
    pub(crate) dst: u64,
    pub(crate) directed: bool,
}

/// The fields of an edge, after its kind.
pub(crate) fn edge_at(bytes: &[u8], offset: usize) -> Result<EdgeFields, ReadFault>
    requires { offset ≤ length bytes.now }
    ensures fields { IsReadAs (λ edge. edge) result (edge_fields_at bytes.now offset) }
    ensures fits { OnOk result (offset + 25 ≤ length bytes.now) }
{
    let id = u64_at(bytes, offset)?;
    let src = u64_at(bytes, offset + 8)?;
    let dst = u64_at(bytes, offset + 16)?;
    let directed = byte_at(bytes, offset + 24, 0, 1)?;
    Ok(EdgeFields {
        id,
        src,
        dst,
        directed: directed == 1,
    })
}

/// The kind and the id of a node.
pub(crate) fn node_bytes(kind: u8, id: u64) -> [u8; NODE_SIZE]
    ensures { result ≡ node_bytes kind id }
{
    let mut bytes = [kind; NODE_SIZE];
    bytes[1..].copy_from_slice(&id.to_be_bytes());
    bytes
}

/// The kind and the fields of an edge.
pub(crate) fn edge_bytes(kind: u8, edge: EdgeFields) -> [u8; EDGE_SIZE]
    ensures { result ≡ edge_bytes kind edge }
{
    let mut bytes = [kind; EDGE_SIZE];
    bytes[1..9].copy_from_slice(&edge.id.to_be_bytes());
    bytes[9..17].copy_from_slice(&edge.src.to_be_bytes());
    bytes[17..25].copy_from_slice(&edge.dst.to_be_bytes());
    bytes[25] = u8::from(edge.directed);
    bytes
}
