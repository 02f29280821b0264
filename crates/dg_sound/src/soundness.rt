//! What is said of an index file: sound, or the first record that is not right.
use dg_graph::Column;
use dg_history::Key;

/// Whether an index file is exactly what its own events determine.
#[derive(Clone, Copy)]
pub enum Soundness {
    /// It is; and the number of its lists, tops and downs.
    Sound(u64),
    /// It is not; and the first record, in the order of keys, that is not right, with its first such column.
    Unsound(Key, Column),
}
