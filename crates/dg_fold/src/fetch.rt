//! Reading the records of a walk.

ghost use Rattle.std.specs.Prelude.{◌≡◌, ◌++◌, [], ◌∷◌, List, map, sum_by, None, IfOk, IfSome, OnOk, IsErrOf, IsTrue};
ghost use Rattle.std.specs.List.{All, Contains};
ghost use Rattle.std.specs.Option.{ForSome};
ghost use Rattle.dg_disk.specs.Calls.{Fails, ReadsDisk};
ghost use Rattle.dg_file.specs.Images.{IsOpenedAs};
ghost use Rattle.dg_graph.specs.declared.element.Column.{Column};
ghost use Rattle.dg_history.specs.declared.node.Key.{Key};
ghost use Rattle.dg_plan.specs.declared.edge.Edge.{Edge};
ghost use Rattle.dg_plan.specs.declared.edge.Way.{Way};
ghost use Rattle.dg_fold.specs.declared.part.Part.{Part};
ghost use Rattle.dg_fold.specs.BytesRead.{AreParts, HoldsWhatIsEntered, IsEntered, IsKept, entered_by, entered_length, named_along, named_by, named_in};
ghost use Rattle.dg_fold.specs.Parts.{bytes_in, graph_columns};
ghost use Rattle.dg_records.specs.ColumnReads.{Takes, TakesAtMost, asked_length, kept_in};

use crate::part::{Bytes, Part};
use crate::record::read_record;
use dg_disk::Disk;
use dg_file::{FetchFault, Index};
use dg_graph::Columns;
use dg_history::Key;
use dg_plan::{Edge, Via, Way};
use std::alloc::{AllocError, Global};

// The same bytes once more.
fn copied(alloc: Global, bytes: &Bytes) -> Result<Bytes, AllocError>
    ensures { IfOk result (λ b. (col : Column) → bytes_in b col ≡ bytes_in bytes.now col) }
{
    Ok(Bytes {
        structure: bytes.structure.clone()?,
        node_attr: bytes.node_attr.clone()?,
        edge_attr: bytes.edge_attr.clone()?,
    })
}

// Whether the two are one key.
pub(crate) fn is_same(left: Key, right: Key) -> bool
    ensures same { IsTrue result → left ≡ right }
    ensures all { left ≡ right → IsTrue result }
{
    left == right
}

// The bytes of a record that was read before.
fn held(alloc: Global, parts: &[Part], key: Key) -> Result<Bytes, AllocError>
    requires { Contains (map (λ (p : Part). p.key) parts.now) key }
    ensures { IfOk result (λ b. (p : Part) × Contains parts.now p × (p.key ≡ key) × ((col : Column) → bytes_in b col ≡ bytes_in p.bytes col)) }
{
    // From the last on, which is mostly near.
    for i in (0..parts.len()).rev() {
        let part = &parts[i];
        if is_same(part.key, key) {
            return copied(alloc, &part.bytes);
        }
    }
    unreachable!()
}

// Adds the part of a record in its way.
fn add(parts: &mut Vec<Part>, key: Key, way: Way, bytes: Bytes) -> Result<(), AllocError>
    ensures { OnOk result (parts.new.items ≡ parts.old.items ++ record { key = key; way = way; until = None; bytes = bytes } ∷ []) }
{
    parts.push(Part {
        key,
        way,
        until: None,
        bytes,
    })?;
    Ok(())
}

// Reads the record that an edge enters, and adds the part of the record that it names.
fn take_step<D: Disk>(
    alloc: Global,
    index: &Index,
    disk: &mut D,
    via: Via,
    cols: Columns,
    parts: &mut Vec<Part>,
) -> Result<(), FetchFault>
    requires kept { IsKept index.now.opening via }
    requires entered { IsEntered (map (λ (p : Part). p.key) parts.old.items) via }
    requires image { IfSome (D.image disk.old) (λ image. IsOpenedAs image index.now.opening) }
    ensures named { OnOk result (named_in parts.new.items ≡ named_in parts.old.items ++ named_by via) }
    ensures parts { OnOk result (ForSome (D.image disk.old) (λ image. (named : List (Key × Way)) → AreParts (kept_in image index.now.opening) cols named parts.old.items
        → AreParts (kept_in image index.now.opening) cols (named ++ named_by via) parts.new.items)) }
    ensures takes { OnOk result (ForSome (D.image disk.old) (λ image. Takes (sum_by (asked_length (kept_in image index.now.opening) (graph_columns cols)) (entered_by via)) (D.taken disk.old) (D.taken disk.new))) }
    ensures most { ForSome (D.image disk.old) (λ image. TakesAtMost (sum_by (asked_length (kept_in image index.now.opening) (graph_columns cols)) (entered_by via)) (D.taken disk.old) (D.taken disk.new)) }

    // errors
    ensures cause { IsErrOf result FetchFault.Disk → Fails D.Disk disk.old disk.new }

    // frame
    ensures frame { ReadsDisk D.Disk disk.old disk.new }
{
    match via {
        Via::Now | Via::Base(_) | Via::Recent(_) => Ok(()),
        Via::Paid(key, way) => {
            let bytes = read_record(alloc, index, disk, key, cols)?;
            add(parts, key, way, bytes)?;
            Ok(())
        }
        Via::Held(key, way) => {
            let bytes = held(alloc, parts.as_slice(), key)?;
            add(parts, key, way, bytes)?;
            Ok(())
        }
    }
}

/// Reads the records of a walk through an index: each record that its edges enter, as often as they do, in
/// the order of the edges and of the columns structure, node attributes, edge attributes. It does not look at
/// whether messages are asked for, and reads none. Gives one part for each edge that names a record, in order; a
/// column that is not asked for has no bytes. The index keeps each record that the walk enters, and each edge that
/// holds a record comes after one that enters it. `FetchFault::Disk` where the disk failed, `FetchFault::Memory` for
/// want of memory.
pub fn fetch_walk<D: Disk>(
    alloc: Global,
    index: &Index,
    disk: &mut D,
    walk: &[Edge],
    cols: Columns,
) -> Result<Vec<Part>, FetchFault>
    requires kept { All (λ (e : Edge). IsKept index.now.opening e.via) walk.now }
    requires entered { HoldsWhatIsEntered [] walk.now }
    requires image { IfSome (D.image disk.old) (λ image. IsOpenedAs image index.now.opening) }
    ensures parts { IfOk result (λ parts. IfSome (D.image disk.old) (λ image. AreParts (kept_in image index.now.opening) cols (named_along walk.now) parts.items)) }
    ensures takes { OnOk result (IfSome (D.image disk.old) (λ image. Takes (entered_length (kept_in image index.now.opening) cols walk.now) (D.taken disk.old) (D.taken disk.new))) }
    ensures most { IfSome (D.image disk.old) (λ image. TakesAtMost (entered_length (kept_in image index.now.opening) cols walk.now) (D.taken disk.old) (D.taken disk.new)) }

    // errors
    ensures cause { IsErrOf result FetchFault.Disk → Fails D.Disk disk.old disk.new }

    // frame
    ensures frame { ReadsDisk D.Disk disk.old disk.new }
{
    let mut parts = Vec::new(alloc);
    for edge in walk {
        take_step(alloc, index, disk, edge.via, cols, &mut parts)?;
    }
    Ok(parts)
}
