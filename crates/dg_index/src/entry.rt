//! What an index keeps of each record and each batch.
use crate::per_column::PerColumn;

/// The first and the last instant of a list of events, or of a batch.
#[derive(Clone, Copy)]
pub struct Ends {
    /// The first instant.
    pub first: u64,
    /// The last instant.
    pub last: u64,
}

/// What an index keeps of one record. Its four columns stand one after another: structure, attributes of
/// nodes, attributes of edges, messages.
#[derive(Clone, Copy)]
pub struct Entry {
    /// The bytes of each column.
    pub lengths: PerColumn<u64>,
    /// The byte of the file at which the first column begins.
    pub offset: u64,
    /// The instants of a list of events, and `None` for every other record.
    pub ends: Option<Ends>,
}

/// What a directory tells of one record.
#[derive(Clone, Copy)]
pub struct Row {
    /// The instants of a list of events, and `None` for every other record.
    pub ends: Option<Ends>,
    /// The bytes of each column.
    pub lengths: PerColumn<u64>,
}

/// What an index keeps of a batch, without its events.
#[derive(Clone, Copy)]
pub struct BatchEntry {
    /// How many events it has.
    pub events: u64,
    /// The instants of its first and of its last event.
    pub ends: Ends,
    /// How many names it brings.
    pub names: u32,
}
