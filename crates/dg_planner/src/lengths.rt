//! The bytes of the asked columns of a record: what a step that reads it weighs.
ghost use Rattle.std.specs.Prelude.{◌≡◌, ◌≤◌};
ghost use Rattle.dg_catalogue.specs.declared.catalogue.TheConstants.{BYTES_MAX};
ghost use Rattle.dg_catalogue.specs.Entries.{IsInRange};
ghost use Rattle.dg_planner.specs.AskedLengths.{asked_in, asked_length_of};

use dg_catalogue::{Catalogue, Entry};
use dg_graph::Columns;
use dg_history::Key;
use dg_index::PerColumn;

// The bytes of the asked columns of an entry, without messages: no step reads them.
fn asked_in(entry: &Entry, cols: Columns) -> u64
    requires { IsInRange entry.now }
    ensures { result ≡ asked_in entry.now cols }
{
    let PerColumn {
        structure,
        node_attrs,
        edge_attrs,
        ..
    } = entry.lengths;
    let of_nodes = if cols.nodes_attr { node_attrs } else { 0 };
    let of_edges = if cols.edges_attr { edge_attrs } else { 0 };
    structure + (of_nodes + of_edges)
}

/// The bytes of the asked columns of a record, without messages, and 0 where its key is not held.
pub fn asked_length(catalogue: &Catalogue, cols: Columns, key: Key) -> u64
    ensures { result ≡ asked_length_of catalogue.now cols key }
{
    match catalogue.entry(key) {
        Some(entry) => asked_in(&entry, cols),
        None => 0,
    }
}
