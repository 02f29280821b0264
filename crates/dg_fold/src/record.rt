//! Reading a record of an index.

ghost use Rattle.std.specs.Prelude.{◌≡◌, true, length, is_some, IfOk, IfSome, OnOk, IsErrOf};
ghost use Rattle.std.specs.Map.{lookup};
ghost use Rattle.std.specs.Option.{ForSome};
ghost use Rattle.dg_disk.specs.Calls.{Fails, ReadsDisk};
ghost use Rattle.dg_file.specs.Images.{IsOpenedAs};
ghost use Rattle.dg_graph.specs.declared.element.Column.{Column};
ghost use Rattle.dg_history.specs.Keys.{same_key};
ghost use Rattle.dg_fold.specs.Parts.{bytes_in, graph_columns};
ghost use Rattle.dg_records.specs.ColumnReads.{Takes, TakesAtMost, TakesOrFails, asked_column, asked_length, kept_in};

use crate::part::Bytes;
use dg_disk::Disk;
use dg_event::asks;
use dg_file::{FetchFault, Index};
use dg_graph::{Column, Columns};
use dg_history::Key;
use dg_records::read_bytes;
use std::alloc::Global;

// What is read of a column of a record, and no bytes where it is not asked for.
fn read_column<D: Disk>(
    alloc: Global,
    index: &Index,
    disk: &mut D,
    key: Key,
    col: Column,
    cols: Columns,
) -> Result<Vec<u8>, FetchFault>
    requires held { is_some (lookup (same_key key) index.now.opening.records) ≡ true }
    requires image { IfSome (D.image disk.old) (λ image. IsOpenedAs image index.now.opening) }
    ensures bytes { IfOk result (λ v. ForSome (D.image disk.old) (λ image. v.items ≡ asked_column (kept_in image index.now.opening) cols key col)) }
    ensures takes { ForSome (D.image disk.old) (λ image. TakesOrFails result (length (asked_column (kept_in image index.now.opening) cols key col)) (D.taken disk.old) (D.taken disk.new)) }

    // errors
    ensures cause { IsErrOf result FetchFault.Disk → Fails D.Disk disk.old disk.new }

    // frame
    ensures frame { ReadsDisk D.Disk disk.old disk.new }
{
    if !asks(cols, col) {
        return Ok(Vec::new(alloc));
    }
    read_bytes(alloc, index, disk, key, col)
}

/// Reads the asked columns of a record that the index keeps, but no messages. `FetchFault::Disk` where the disk
/// failed, `FetchFault::Memory` for want of memory.
pub(crate) fn read_record<D: Disk>(
    alloc: Global,
    index: &Index,
    disk: &mut D,
    key: Key,
    cols: Columns,
) -> Result<Bytes, FetchFault>
    requires held { is_some (lookup (same_key key) index.now.opening.records) ≡ true }
    requires image { IfSome (D.image disk.old) (λ image. IsOpenedAs image index.now.opening) }
    ensures bytes { IfOk result (λ b. ForSome (D.image disk.old) (λ image. (col : Column) → bytes_in b col ≡ asked_column (kept_in image index.now.opening) (graph_columns cols) key col)) }
    ensures takes { OnOk result (ForSome (D.image disk.old) (λ image. Takes (asked_length (kept_in image index.now.opening) (graph_columns cols) key) (D.taken disk.old) (D.taken disk.new))) }
    ensures most { ForSome (D.image disk.old) (λ image. TakesAtMost (asked_length (kept_in image index.now.opening) (graph_columns cols) key) (D.taken disk.old) (D.taken disk.new)) }

    // errors
    ensures cause { IsErrOf result FetchFault.Disk → Fails D.Disk disk.old disk.new }

    // frame
    ensures frame { ReadsDisk D.Disk disk.old disk.new }
{
    let structure = read_column(alloc, index, disk, key, Column::Structure, cols)?;
    let node_attr = read_column(alloc, index, disk, key, Column::NodeAttr, cols)?;
    let edge_attr = read_column(alloc, index, disk, key, Column::EdgeAttr, cols)?;
    Ok(Bytes {
        structure,
        node_attr,
        edge_attr,
    })
}
