//! The lines of a reply's body, put piece by piece behind what a buffer holds.

ghost use Rattle.std.specs.Prelude.{◌≡◌, ◌+◌, ◌≤◌, ◌++◌, [], ◌∷◌, codes, decimal, if◌then◌else◌, length};
ghost use Rattle.dg_text.specs.Names.{name_text};
ghost use Rattle.dg_machine.specs.ReplyText.{body_words, element_words, key_words, length_words, node_words, side_word, text_line};
ghost use Rattle.dg_reply.specs.Buffered.{HasBufferRoom, spaced};

use crate::reply_buffer::{BODY_LINE_BYTES, ReplyBuffer};
use dg_graph::Element;
use dg_history::{Key, NodeId};
use dg_index::PerColumn;
use dg_machine::BodyLine;
use dg_names::Names;
use dg_query::{Neighbour, Side};
use dg_text::NAME_BYTES_MAX;

/// The most bytes of a key and a value, with a space between them and a line feed.
const NAMES_BYTES: usize = 2 * NAME_BYTES_MAX + 2;

/// The most bytes of the word of a side.
const SIDE_BYTES: usize = 4;

/// The most bytes of the words of a node or a key, each behind a space.
const NODE_BYTES: usize = 48;

/// The most bytes of the lengths of a record's columns, each behind a space.
const LENGTHS_BYTES: usize = 84;

/// Holds the line of a body behind what is held. The names are those whose numbers the line has.
pub fn hold_body_line(buffer: &mut ReplyBuffer, names: &Names, line: &BodyLine)
    requires { HasBufferRoom buffer.old BODY_LINE_BYTES }
    ensures { buffer.new ≡ buffer.old ++ text_line (body_words names.now line.now) }
{
    match line {
        BodyLine::Element(element) => hold_element(buffer, names, element),
        BodyLine::Attribute(attribute) => {
            buffer.hold(b"attr ");
            hold_names(buffer, names, attribute.key, attribute.value);
        }
        BodyLine::Neighbour(neighbour) => hold_neighbour(buffer, *neighbour),
        BodyLine::Handle { handle, t, single } => hold_handle(buffer, *handle, *t, *single),
        BodyLine::Step { edge, head, weight } => hold_step(buffer, *edge, *head, *weight),
        BodyLine::Potential { node, value } => hold_potential(buffer, *node, *value),
        BodyLine::Sizes { key, lengths } => hold_sizes(buffer, *key, lengths),
    }
}

// The line of an element.
fn hold_element(buffer: &mut ReplyBuffer, names: &Names, element: &Element)
    requires { HasBufferRoom buffer.old BODY_LINE_BYTES }
    ensures { buffer.new ≡ buffer.old ++ text_line (element_words names.now element.now) }
{
    match *element {
        Element::Node { id } => {
            buffer.hold_with(b"node ", id);
            buffer.hold(b"\n");
        }
        Element::Edge {
            id,
            src,
            dst,
            directed,
        } => hold_edge(buffer, id, src, dst, directed),
        Element::NodeAttr { id, key, value } => {
            buffer.hold_with(b"nattr ", id);
            buffer.hold(b" ");
            hold_names(buffer, names, key, value);
        }
        Element::EdgeAttr { id, key, value } => {
            buffer.hold_with(b"eattr ", id);
            buffer.hold(b" ");
            hold_names(buffer, names, key, value);
        }
        Element::Message { src, dst, value } => hold_message(buffer, names, src, dst, value),
    }
}

// The line of a message.
fn hold_message(buffer: &mut ReplyBuffer, names: &Names, src: u64, dst: u64, value: u32)
    requires { HasBufferRoom buffer.old BODY_LINE_BYTES }
    ensures { buffer.new ≡ buffer.old ++ text_line (codes "msg" ∷ decimal src ∷ decimal dst ∷ name_text names.now value ∷ []) }
{
    buffer.hold_with(b"msg ", src);
    buffer.hold_with(b" ", dst);
    buffer.hold(b" ");
    buffer.hold(text_of(names, value));
    buffer.hold(b"\n");
}

// The line of an edge.
fn hold_edge(buffer: &mut ReplyBuffer, id: u64, src: u64, dst: u64, directed: bool)
    requires { HasBufferRoom buffer.old BODY_LINE_BYTES }
    ensures { buffer.new ≡ buffer.old ++ text_line (codes "edge" ∷ decimal id ∷ decimal src ∷ decimal dst ∷ (if directed then codes "dir" else codes "undir") ∷ []) }
{
    buffer.hold_with(b"edge ", id);
    buffer.hold_with(b" ", src);
    buffer.hold_with(b" ", dst);
    if directed {
        buffer.hold(b" dir\n");
    } else {
        buffer.hold(b" undir\n");
    }
}

// The end of the line of an attribute: its key and its value.
fn hold_names(buffer: &mut ReplyBuffer, names: &Names, key: u32, value: u32)
    requires { HasBufferRoom buffer.old NAMES_BYTES }
    ensures { buffer.new ≡ buffer.old ++ text_line (name_text names.now key ∷ name_text names.now value ∷ []) }
{
    buffer.hold(text_of(names, key));
    buffer.hold(b" ");
    buffer.hold(text_of(names, value));
    buffer.hold(b"\n");
}

// The text of the name of this number, or the empty text where there is no such name.
fn text_of(names: &Names, number: u32) -> &[u8]
    ensures text { result.now ≡ name_text names.now number }
    ensures short { length result.now ≤ NAME_BYTES_MAX }
{
    match names.text(number) {
        Some(text) => text,
        None => b"".as_slice(),
    }
}

// The line of an edge at a node: the side on which it lies, its id, and the node at its other end.
fn hold_neighbour(buffer: &mut ReplyBuffer, neighbour: Neighbour)
    requires { HasBufferRoom buffer.old BODY_LINE_BYTES }
    ensures { buffer.new ≡ buffer.old ++ text_line (side_word neighbour.side ∷ decimal neighbour.edge ∷ decimal neighbour.node ∷ []) }
{
    hold_side(buffer, neighbour.side);
    buffer.hold_with(b" ", neighbour.edge);
    buffer.hold_with(b" ", neighbour.node);
    buffer.hold(b"\n");
}

// The word of the side of a node on which an edge lies.
fn hold_side(buffer: &mut ReplyBuffer, side: Side)
    requires { HasBufferRoom buffer.old SIDE_BYTES }
    ensures put { buffer.new ≡ buffer.old ++ side_word side }
    ensures len { length buffer.new ≤ length buffer.old + SIDE_BYTES }
{
    match side {
        Side::Out => buffer.hold(b"out"),
        Side::Inward => buffer.hold(b"in"),
        Side::Both => buffer.hold(b"both"),
    }
}

// The line of a new handle: its number, its instant, and the weight of the instant's single plan.
fn hold_handle(buffer: &mut ReplyBuffer, handle: u32, t: u64, single: u64)
    requires { HasBufferRoom buffer.old BODY_LINE_BYTES }
    ensures { buffer.new ≡ buffer.old ++ text_line (codes "handle" ∷ decimal handle ∷ decimal t ∷ decimal single ∷ []) }
{
    buffer.hold_with(b"handle ", u64::from(handle));
    buffer.hold_with(b" ", t);
    buffer.hold_with(b" ", single);
    buffer.hold(b"\n");
}

// The line of a plan's step: the number of its edge, the node that it enters, and its weight.
fn hold_step(buffer: &mut ReplyBuffer, edge: u32, head: NodeId, weight: u64)
    requires { HasBufferRoom buffer.old BODY_LINE_BYTES }
    ensures { buffer.new ≡ buffer.old ++ text_line (codes "step" ∷ decimal edge ∷ (node_words head ++ decimal weight ∷ [])) }
{
    buffer.hold_with(b"step ", u64::from(edge));
    hold_node(buffer, head);
    buffer.hold_with(b" ", weight);
    buffer.hold(b"\n");
}

// The line of the potential of a node.
fn hold_potential(buffer: &mut ReplyBuffer, node: NodeId, value: u64)
    requires { HasBufferRoom buffer.old BODY_LINE_BYTES }
    ensures { buffer.new ≡ buffer.old ++ text_line (codes "potential" ∷ (node_words node ++ decimal value ∷ [])) }
{
    buffer.hold(b"potential");
    hold_node(buffer, node);
    buffer.hold_with(b" ", value);
    buffer.hold(b"\n");
}

// The line of a record: its key, and the bytes of each column.
fn hold_sizes(buffer: &mut ReplyBuffer, key: Key, lengths: &PerColumn<u64>)
    requires { HasBufferRoom buffer.old BODY_LINE_BYTES }
    ensures { buffer.new ≡ buffer.old ++ text_line (codes "record" ∷ (key_words key ++ length_words lengths.now)) }
{
    buffer.hold(b"record");
    hold_key(buffer, key);
    hold_lengths(buffer, lengths);
    buffer.hold(b"\n");
}

// The bytes of each column of a record, each number behind a space.
fn hold_lengths(buffer: &mut ReplyBuffer, lengths: &PerColumn<u64>)
    requires { HasBufferRoom buffer.old LENGTHS_BYTES }
    ensures put { buffer.new ≡ buffer.old ++ spaced (length_words lengths.now) }
    ensures len { length buffer.new ≤ length buffer.old + LENGTHS_BYTES }
{
    buffer.hold_with(b" ", lengths.structure);
    buffer.hold_with(b" ", lengths.node_attrs);
    buffer.hold_with(b" ", lengths.edge_attrs);
    buffer.hold_with(b" ", lengths.transient);
}

// The words of a node, each behind a space.
fn hold_node(buffer: &mut ReplyBuffer, node: NodeId)
    requires { HasBufferRoom buffer.old NODE_BYTES }
    ensures put { buffer.new ≡ buffer.old ++ spaced (node_words node) }
    ensures len { length buffer.new ≤ length buffer.old + NODE_BYTES }
{
    match node {
        NodeId::Root => buffer.hold(b" root"),
        NodeId::Now => buffer.hold(b" now"),
        NodeId::Recent => buffer.hold(b" recent"),
        NodeId::Leaf(number) => buffer.hold_with(b" leaf ", u64::from(number)),
        NodeId::List(number) => buffer.hold_with(b" list ", u64::from(number)),
        NodeId::Inner(height, number) => {
            buffer.hold_with(b" inner ", u64::from(height));
            buffer.hold_with(b" ", u64::from(number));
        }
    }
}

// The words of a record's key, each behind a space.
fn hold_key(buffer: &mut ReplyBuffer, key: Key)
    requires { HasBufferRoom buffer.old NODE_BYTES }
    ensures put { buffer.new ≡ buffer.old ++ spaced (key_words key) }
    ensures len { length buffer.new ≤ length buffer.old + NODE_BYTES }
{
    match key {
        Key::List(number) => buffer.hold_with(b" list ", u64::from(number)),
        Key::Piece(segment) => buffer.hold_with(b" piece ", u64::from(segment)),
        Key::Top(height) => buffer.hold_with(b" top ", u64::from(height)),
        Key::Down(height, child) => {
            buffer.hold_with(b" down ", u64::from(height));
            buffer.hold_with(b" ", u64::from(child));
        }
    }
}
