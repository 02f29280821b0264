//! The sizes and kinds of the format (docs/FORMATS.md). Sizes are in bytes.

/// The count at the head of a list.
pub(crate) const COUNT_SIZE: usize = 4;

/// An event's position and instant.
pub(crate) const STAMP_SIZE: usize = 10;

/// A node, or its event: a kind and an id.
pub(crate) const NODE_SIZE: usize = 9;

/// An edge, or its event: a kind, three ids, and whether it is directed.
pub(crate) const EDGE_SIZE: usize = 26;

/// The event of a value: an id, a key, the old value and the new one.
pub(crate) const CHANGE_SIZE: usize = 20;

/// A message, or its event: two ids and a value.
pub(crate) const MESSAGE_SIZE: usize = 20;

/// A value: an id, a key, and the value.
pub(crate) const VALUE_SIZE: usize = 16;

/// The fewest bytes that an event takes.
pub(crate) const SMALLEST_EVENT: usize = STAMP_SIZE + NODE_SIZE;

/// The most bytes that an event takes.
const LARGEST_EVENT: u64 = (STAMP_SIZE + EDGE_SIZE) as u64;

/// The most events of a column: each has a position of its own, in two bytes.
const EVENTS_MAX: u64 = 65_536;

/// The bytes of an event's position.
const POSITION_SIZE: u64 = 2;

/// How many bytes of an event column need to be read, from its first on. They hold a count, as many events as there
/// are positions, and the position of one more: a column that has as many bytes is in no spelling.
pub const EVENTS_FRONT: u64 = COUNT_SIZE as u64 + EVENTS_MAX * LARGEST_EVENT + POSITION_SIZE;

/// The fewest bytes that an element takes.
pub(crate) const SMALLEST_ELEMENT: usize = NODE_SIZE;

/// The kind of the event that adds a node.
pub(crate) const NODE_ADDED: u8 = 1;

/// The kind of the event that removes a node.
pub(crate) const NODE_REMOVED: u8 = 2;

/// The kind of the event that adds an edge.
pub(crate) const EDGE_ADDED: u8 = 3;

/// The kind of the event that removes an edge.
pub(crate) const EDGE_REMOVED: u8 = 4;

/// The kind of a node.
pub(crate) const NODE: u8 = 1;

/// The kind of an edge.
pub(crate) const EDGE: u8 = 2;
