//! The hash by which a balanced node takes elements of its first or its last child.
ghost use Rattle.std.specs.Prelude.{◌≡◌, ◌∷◌, ◌++◌, []};
ghost use Rattle.dg_graph.specs.declared.element.Element.TheVariants.{Edge, Message};
ghost use Rattle.dg_graph.specs.DifferentialFunction.{canonical, fnv, fnv_from, part};
ghost use Rattle.dg_graph.specs.Columns.{four, eight};

use dg_graph::Element;

/// The FNV-1a hash of 64 bits of no bytes.
const HASH_START: u64 = 14_695_981_039_346_656_037;

/// The prime by which FNV-1a multiplies after each byte.
const HASH_PRIME: u64 = 1_099_511_628_211;

/// The bits below a hash's top byte.
const TOP_BYTE_SHIFT: u32 = 56;

/// The byte before a node's fields.
const KIND_NODE: u8 = 1;

/// The byte before an edge's fields.
const KIND_EDGE: u8 = 2;

/// The byte before the fields of a node's attribute.
const KIND_NODE_ATTR: u8 = 3;

/// The byte before the fields of an edge's attribute.
const KIND_EDGE_ATTR: u8 = 4;

/// The byte before a message's fields.
const KIND_MESSAGE: u8 = 5;

/// Whether the top byte of the 64-bit FNV-1a hash of the element's bytes is below `r`: never for 0,
/// and always from 256 on. docs/FORMATS.md has the bytes.
pub fn part(element: &Element, r: u16) -> bool
    ensures { result ≡ part element.now r }
{
    hash(element) >> TOP_BYTE_SHIFT < u64::from(r)
}

/// The FNV-1a hash of the element's bytes: its kind, and then its fields, the high byte first.
fn hash(element: &Element) -> u64
    ensures { result ≡ fnv (canonical element.now) }
{
    match *element {
        Element::Node { id } => with_u64(with_byte(HASH_START, KIND_NODE), id),
        Element::Edge {
            id,
            src,
            dst,
            directed,
        } => hash_edge(id, src, dst, directed),
        Element::NodeAttr { id, key, value } => hash_attribute(KIND_NODE_ATTR, id, key, value),
        Element::EdgeAttr { id, key, value } => hash_attribute(KIND_EDGE_ATTR, id, key, value),
        Element::Message { src, dst, value } => hash_message(src, dst, value),
    }
}

/// The hash of an edge's bytes.
fn hash_edge(id: u64, src: u64, dst: u64, directed: bool) -> u64
    ensures { result ≡ fnv (canonical (Edge directed id src dst)) }
{
    let named = with_u64(with_byte(HASH_START, KIND_EDGE), id);
    let joined = with_u64(with_u64(named, src), dst);
    with_byte(joined, u8::from(directed))
}

/// The hash of an attribute's bytes.
fn hash_attribute(kind: u8, id: u64, key: u32, value: u32) -> u64
    ensures { result ≡ fnv (kind ∷ (eight id ++ (four key ++ four value))) }
{
    let named = with_u64(with_byte(HASH_START, kind), id);
    with_u32(with_u32(named, key), value)
}

/// The hash of a message's bytes.
fn hash_message(src: u64, dst: u64, value: u32) -> u64
    ensures { result ≡ fnv (canonical (Message src dst value)) }
{
    let from = with_u64(with_byte(HASH_START, KIND_MESSAGE), src);
    with_u32(with_u64(from, dst), value)
}

/// The hash, gone on by the bytes of a number.
fn with_u64(hash: u64, number: u64) -> u64
    ensures { result ≡ fnv_from hash (eight number) }
{
    with_bytes(hash, &number.to_be_bytes())
}

/// The hash, gone on by the bytes of a number.
fn with_u32(hash: u64, number: u32) -> u64
    ensures { result ≡ fnv_from hash (four number) }
{
    with_bytes(hash, &number.to_be_bytes())
}

/// The hash, gone on by these bytes.
fn with_bytes(hash: u64, bytes: &[u8]) -> u64
    ensures { result ≡ fnv_from hash bytes.now }
{
    let mut gone_on = hash;
    for byte in bytes {
        gone_on = with_byte(gone_on, *byte);
    }
    gone_on
}

/// The hash, gone on by this byte.
fn with_byte(hash: u64, byte: u8) -> u64
    ensures { result ≡ fnv_from hash (byte ∷ []) }
{
    (hash ^ u64::from(byte)).wrapping_mul(HASH_PRIME)
}
