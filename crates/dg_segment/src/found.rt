//! What a directory tells of its segment.

use dg_history::Key;
use dg_index::{BatchEntry, Row};

/// A directory that may stand where it was found.
#[derive(Drop)]
pub struct FoundDirectory {
    /// What an index keeps of the batch.
    pub batch: BatchEntry,
    /// The keys of the records, in the order of the file.
    pub keys: Vec<Key>,
    /// A row for each of them.
    pub rows: Vec<Row>,
}
