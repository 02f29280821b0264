//! What a live handle stands for.
use crate::selection::Selection;
use dg_graph::Columns;
use dg_history::NodeId;

/// What a live handle stands for: what is shown, and in which columns.
#[derive(Clone, Copy)]
pub struct Stands {
    pub what: Shown,
    pub cols: Columns,
}

// A new kind also needs: its rows in `overlay_on`, `base_node` and `elements_of` (`MachineState`), and one that says when
// a history reaches it, beside what a session stands for.
/// What a handle shows in its columns.
#[derive(Clone, Copy)]
pub enum Shown {
    /// The graph as of the instant `t`. It rests on the handle `on`, if on any.
    Overlay { t: u64, on: Option<u32> },
    /// The set of a leaf or of an interior node of the index. It rests on nothing.
    Base(NodeId),
    /// The elements that were selected. It rests on nothing, and nothing rests on it.
    Selected(Selection),
}
