//! The changes that the lines of a batch ask for, with the texts of keys and values as they stand there.

ghost use Rattle.std.specs.Prelude.{◌≤◌, length};
ghost use Rattle.dg_text.specs.declared.limits.TheConstants.{NAME_BYTES_MAX};

use dg_graph::What;

/// A change by its texts.
#[derive(Clone, Copy)]
pub struct TextChange<'a> {
    /// The instant.
    pub time: u64,
    /// What is asked for.
    pub what: TextWhat<'a>,
}

/// What a change asks for, by its texts.
#[derive(Clone, Copy)]
pub enum TextWhat<'a> {
    /// A change that has no texts.
    Plain(What),
    /// A value of a key at a node.
    SetNode(TextAttribute<'a>),
    /// No value of a key at a node.
    UnsetNode(TextKey<'a>),
    /// A value of a key at an edge.
    SetEdge(TextAttribute<'a>),
    /// No value of a key at an edge.
    UnsetEdge(TextKey<'a>),
    /// A message.
    Send(TextMessage<'a>),
}

/// An attribute of a node or an edge, by its texts: `ID KEY VALUE`.
#[derive(Clone, Copy)]
pub struct TextAttribute<'a> {
    /// The id of the node or the edge.
    pub id: u64,
    /// The key, which may be a name.
    pub key: &'a [u8],
    /// The value, which may be a name.
    pub value: &'a [u8],
    ghost short_key: { length key.now ≤ NAME_BYTES_MAX },
    ghost short_value: { length value.now ≤ NAME_BYTES_MAX },
}

/// A message from one node to another, by its text: `SRC DST VALUE`.
#[derive(Clone, Copy)]
pub struct TextMessage<'a> {
    /// The node that sends it.
    pub src: u64,
    /// The node to which it goes.
    pub dst: u64,
    /// The value, which may be a name.
    pub value: &'a [u8],
    ghost short_value: { length value.now ≤ NAME_BYTES_MAX },
}

/// A key at a node or an edge, by its text: `ID KEY`.
#[derive(Clone, Copy)]
pub struct TextKey<'a> {
    /// The id of the node or the edge.
    pub id: u64,
    /// The key, which may be a name.
    pub key: &'a [u8],
    ghost short_key: { length key.now ≤ NAME_BYTES_MAX },
}
