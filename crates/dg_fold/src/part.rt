//! The parts of a plan: records as they are read.

use dg_history::Key;
use dg_plan::Way;

/// The bytes of the three columns of a record in which graphs have elements. A column that is not asked for has none.
#[derive(Drop)]
pub struct Bytes {
    pub structure: Vec<u8>,
    pub node_attr: Vec<u8>,
    pub edge_attr: Vec<u8>,
}

/// A record as a step of a walk takes it.
#[derive(Drop)]
pub struct Part {
    /// Which record it is.
    pub key: Key,
    /// How it is applied.
    pub way: Way,
    /// The last instant whose events count; `None` counts all. Used with a list that is taken forward, only.
    pub until: Option<u64>,
    /// What it holds.
    pub bytes: Bytes,
}
