//! The commands of a script.
use crate::query::Query;
use crate::selection::Selection;
use crate::texts::{KeyText, ValueText};
use dg_graph::{Columns, Function};
use dg_history::NodeId;

/// The most instants of one command.
pub const TIMES_MAX: usize = 32;

// A new command also needs: its verb and words in `CommandGrammar`, its rows in `needs` and `accepted`, and the files that
// docs/CONTRIBUTING.md lists, under a command that reads or one that writes.
/// A command of the script. docs/SCRIPT.md has its grammar.
#[derive(Clone, Copy)]
pub enum Command {
    /// Make an empty index with this leaf list size, arity and differential function.
    Create {
        l: u32,
        k: u32,
        function: Function,
    },
    /// Make an empty index whose differential function is skewed, with `r` of 256 parts from the last child.
    CreateSkewed {
        l: u32,
        k: u32,
        r: u32,
    },
    /// Go on with the file in its second form.
    Upgrade,
    /// Read `count` change lines, and add them to the empty history as one batch.
    Load {
        count: u32,
    },
    /// Read `count` change lines, and add them to the history as its next batch.
    Append {
        count: u32,
    },
    /// Retrieve the graph as of the instant `t`, in these columns, as a new handle, with the messages of exactly the instant
    /// where they are asked for.
    At {
        t: u64,
        cols: Columns,
    },
    /// Retrieve the graphs as of the first `count` of these instants by one tree, in these columns, each as a
    /// new handle, with the messages of exactly its instant where they are asked for. The other instants are 0.
    Several {
        cols: Columns,
        times: [u64; TIMES_MAX],
        count: u8,
    },
    /// Hold the set of a leaf or of an interior node of the index, in these columns, as a new handle.
    Materialise {
        node: NodeId,
        cols: Columns,
    },
    /// Ask something of a handle.
    Ask {
        handle: u32,
        query: Query,
    },
    /// Give a handle up.
    Release {
        handle: u32,
    },
    /// Sweep so many cells of the pool of graphs.
    Clean {
        cells: u32,
    },
    /// Sweep all cells of the pool of graphs.
    CleanAll,
    /// Print how many handles live, and how many elements their graphs and the current one have together.
    Pool,
    /// Print the least plan of the instant `t` in these columns, with the potentials that certify it.
    Plan {
        t: u64,
        cols: Columns,
    },
    /// Read `count` plan lines, and say whether they are a certificate for the instant `t` in these columns.
    Certify {
        t: u64,
        cols: Columns,
        count: u32,
    },
    /// Say whether the file is exactly what its own events determine.
    Verify,
    /// Print the parameters of the index and its records.
    Tree,
    /// Add the first `count` generated changes of this seed to the empty history as one batch.
    Workload {
        seed: u64,
        count: u32,
    },
    /// Hold the elements that are selected from the history, in these columns, as a new handle.
    Select {
        what: Selection,
        cols: Columns,
    },
    /// Make an index from the values of this node attribute to the nodes that have them.
    Index {
        key: KeyText,
    },
    /// List the nodes that have this value of an indexed node attribute as of the instant `t`.
    Find {
        t: u64,
        key: KeyText,
        value: ValueText,
    },
}
