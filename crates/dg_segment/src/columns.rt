//! The columns of a record, put behind what is there.

ghost use Rattle.std.specs.Prelude.{◌≡◌, ◌+◌, ◌<◌, ◌≤◌, ◌^◌, ◌++◌, vec_capacity, vec_len};
ghost use Rattle.dg_index.specs.FileOfHistory.{bytes_of, lent};
ghost use Rattle.dg_index.specs.OpenedIndex.{lengths_of, total};

use dg_index::PerColumn;

/// The bytes of each column.
pub(crate) fn lengths_of(columns: PerColumn<&[u8]>) -> PerColumn<u64>
    ensures { result ≡ lengths_of (lent columns.entry) }
{
    PerColumn {
        structure: columns.structure.len() as u64,
        node_attrs: columns.node_attrs.len() as u64,
        edge_attrs: columns.edge_attrs.len() as u64,
        transient: columns.transient.len() as u64,
    }
}

/// The bytes of all columns.
pub(crate) fn size(columns: PerColumn<&[u8]>) -> usize
    requires { total (lengths_of (lent columns)) < 2 ^ 64 }
    ensures { result ≡ total (lengths_of (lent columns.entry)) }
{
    columns.structure.len()
        + columns.node_attrs.len()
        + columns.edge_attrs.len()
        + columns.transient.len()
}

/// Puts the columns, for which there is room.
pub(crate) fn put_columns(into: &mut Vec<u8>, columns: PerColumn<&[u8]>)
    requires { vec_len into.old + total (lengths_of (lent columns)) ≤ vec_capacity into.old }
    ensures { into.new.items ≡ into.old.items ++ bytes_of (lent columns.entry) }
{
    into.extend_from_slice(columns.structure).unwrap();
    into.extend_from_slice(columns.node_attrs).unwrap();
    into.extend_from_slice(columns.edge_attrs).unwrap();
    into.extend_from_slice(columns.transient).unwrap();
}
