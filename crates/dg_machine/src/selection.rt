//! What a handle holds that stands for no graph.
use dg_expr::Expr;

// A new kind also needs: its elements in `Selections`; its instants in `Needs` and its weight in `Answer`; its first line.
/// Elements that are selected from the history. They need not be a graph: an edge may come without its nodes.
#[derive(Clone, Copy)]
pub enum Selection {
    /// Those of which the expression over instants holds, of those that are in the graph of one of its instants at least.
    Chosen(Expr),
    /// Those that the events from `from` on and before `until` add, with the messages of these events, whether or not they
    /// are there later.
    Added { from: u64, until: u64 },
}
