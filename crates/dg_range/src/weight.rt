//! The bytes of asked columns of lists.
ghost use Rattle.std.specs.Prelude.{◌≡◌, ◌≤◌, ◌-◌};
ghost use Rattle.std.specs.List.{sum_by};
ghost use Rattle.dg_heard.specs.Heard.{list_total};
ghost use Rattle.dg_history.specs.declared.limits.TheConstants.{FILE_BYTES_MAX};
ghost use Rattle.dg_history.specs.declared.node.Key.TheVariants as a_key;
ghost use Rattle.dg_index.specs.Hierarchy.{numbers};
ghost use Rattle.dg_index.specs.OpenedIndex.{entry_at, total};
ghost use Rattle.dg_range.specs.Added.{asked_columns};
ghost use Rattle.dg_range.specs.ColumnRuns.{bytes_along};
ghost use Rattle.dg_range.specs.Weights.{asked_bytes, list_bytes};

use dg_catalogue::Entry;
use dg_file::Index;
use dg_graph::Columns;
use dg_history::Key;
use dg_index::PerColumn;

// The bytes of the asked columns of an entry, messages among them.
fn asked_bytes(entry: &Entry, cols: Columns) -> u64
    requires { total entry.now.lengths ≤ FILE_BYTES_MAX }
    ensures { result ≡ asked_bytes cols entry.now }
{
    let PerColumn {
        structure,
        node_attrs,
        edge_attrs,
        transient,
    } = entry.lengths;
    let of_nodes = if cols.nodes_attr { node_attrs } else { 0 };
    let of_edges = if cols.edges_attr { edge_attrs } else { 0 };
    let of_messages = if cols.transient { transient } else { 0 };
    structure + (of_nodes + (of_edges + of_messages))
}

// The bytes of the asked columns of a list.
fn list_bytes(index: &Index, list: u32, cols: Columns) -> u64
    ensures { result ≡ list_bytes index.now.opening cols list }
{
    // Its clauses tell that the columns of all records are together in the file.
    index.facts();
    match index.entry(Key::List(list)) {
        Some(entry) => asked_bytes(&entry, cols),
        None => 0,
    }
}

/// The bytes of the asked columns of the lists with the numbers from `low` on and before `high`, each column once.
pub fn lists_bytes(index: &Index, low: u32, high: u32, cols: Columns) -> u64
    requires { low ≤ high }
    ensures bytes { result ≡ sum_by (list_bytes index.now.opening cols) (numbers low (high - low)) }
    ensures within { result ≤ FILE_BYTES_MAX }
    ensures along { result ≡ bytes_along index.now.opening (asked_columns cols (numbers low (high - low))) }
{
    // Its clauses tell that the columns of all records are together in the file.
    index.facts();
    let mut bytes = 0;
    let mut list = low;
    while list < high {
        bytes += list_bytes(index, list, cols);
        list += 1;
    }
    bytes
}
