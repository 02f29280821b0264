//! The queries of a handle, and what the first line of an answer tells.
use dg_query::Counts;

// A new query also needs: its rows in `QueryTable`, a row in dg_line's table, its line in dg_reply, and its answer in dg_ask.
/// What is asked of a handle. Nothing is read for it, and nothing changes.
#[derive(Clone, Copy)]
pub enum Query {
    /// List the elements.
    List,
    /// Count the elements, by kind.
    Counts,
    /// Print a node of the graph: its degree and its attributes.
    Node(u64),
    /// Print the edges at a node of the graph, with their other ends.
    Neighbours(u64),
}

/// What the first line of the answer to a query tells, behind the handle.
#[derive(Clone, Copy)]
pub enum QueryHead {
    /// The elements of the handle: as many lines follow.
    List { lines: u64 },
    /// How many elements of each kind the handle has, messages among them where its columns have these.
    Counts { counts: Counts, with_messages: bool },
    /// The node is in the graph, and has so many edges. A line for each attribute follows.
    NodeThere { id: u64, degree: u64 },
    /// The node is not in the graph.
    NodeAbsent { id: u64 },
    /// The edges at a node of the graph: as many lines follow.
    Neighbours { id: u64, lines: u64 },
}
