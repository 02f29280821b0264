//! Composing the records of a walk as they are read.

ghost use Rattle.std.specs.Prelude.{◌≡◌, ◌<◌, ◌≤◌, [], List, Result, drop, length, IfOk, IfSome, OnOk, IsErrOf, IsTrue};
ghost use Rattle.std.specs.List.{All, Contains};
ghost use Rattle.dg_delta.specs.Stacks.{stacked};
ghost use Rattle.dg_disk.specs.Calls.{Fails, ReadsDisk};
ghost use Rattle.dg_file.specs.Images.{IsOpenedAs};
ghost use Rattle.dg_graph.specs.declared.element.Column.{Column};
ghost use Rattle.dg_graph.specs.Composition.{Delta as Deltas};
ghost use Rattle.dg_history.specs.declared.node.Key.{Key};
ghost use Rattle.dg_plan.specs.declared.edge.Edge.{Edge};
ghost use Rattle.dg_fold.specs.declared.part.Part.{Part};
ghost use Rattle.dg_fold.specs.BytesRead.{HoldsWhatIsEntered, IsEntered, IsKept, entered_along, entered_length};
ghost use Rattle.dg_fold.specs.Foldings.{ArePushed, HasParts, StandsOrFails};
ghost use Rattle.dg_fold.specs.Parts.{beside, parts_in, Folds};
ghost use Rattle.dg_records.specs.ColumnReads.{Takes, TakesAtMost, kept_in};

use crate::fault::FoldFault;
use crate::fetch::{fetch_walk, is_same};
use crate::halves::{Weighed, all_weigh, cut_at};
use crate::plan::push_composed;
use dg_delta::{Delta, DeltaStack, Height};
use dg_disk::Disk;
use dg_file::{FetchFault, Index};
use dg_graph::Columns;
use dg_history::Key;
use dg_plan::{Edge, Via};
use std::alloc::Global;
use std::thread::Threads;

impl Weighed for Edge {
    // The bytes that it reads; at least 1.
    fn weight(&self) -> u64 {
        self.weight.max(1)
    }
}

// Whether one of the edges enters the record.
fn enter(edges: &[Edge], key: Key) -> bool
    ensures { IsTrue result → Contains (entered_along edges.now) key }
{
    for edge in edges {
        if let Via::Paid(entered, _) = edge.via {
            if is_same(entered, key) {
                return true;
            }
        }
    }
    false
}

// Whether the record that an edge holds, if it holds one, is one that the edges in front enter.
fn holds_behind(front: &[Edge], via: Via) -> bool
    ensures { IsTrue result → IsEntered (entered_along front.now) via }
{
    match via {
        Via::Held(key, _) => enter(front, key),
        Via::Now | Via::Base(_) | Via::Paid(_, _) | Via::Recent(_) => true,
    }
}

// Whether each record that these edges hold is one that they enter before.
fn hold_alone(edges: &[Edge]) -> bool
    ensures { IsTrue result → HoldsWhatIsEntered [] edges.now }
{
    for (i, edge) in edges.iter().enumerate() {
        if !holds_behind(&edges[..i], edge.via) {
            return false;
        }
    }
    true
}

// Where to cut the walk in two, of which the later holds no record that only the earlier enters: where those in front come
// to two thirds of the weight. `None` where that is not so, or the walk has no two edges.
fn cut_of(walk: &[Edge]) -> Option<usize>
    ensures { IfSome result (λ m. (0 < m) × (m < length walk.now) × HoldsWhatIsEntered [] (drop m walk.now)) }
{
    if walk.len() < 2 {
        return None;
    }
    let middle = cut_at(walk, all_weigh(walk) / 3 * 2);
    if hold_alone(&walk[middle..]) {
        Some(middle)
    } else {
        None
    }
}

// Composes the two on top, of which the one begins at `first` and the other at `then`, or gives the first fault of both.
fn compose_both(
    stack: &mut DeltaStack,
    spare: &mut DeltaStack,
    first: Height,
    then: Height,
    pushed: Result<(), FoldFault>,
    on: Result<(), FoldFault>,
) -> Result<(), FoldFault>
    requires { (a : Result (List Deltas) (Key × Column)) × (b : Result (List Deltas) (Key × Column)) × (old : Deltas) × (mid : Deltas) × ArePushed pushed on first then (stacked stack.old) a b old mid }
    ensures { (a b : Result (List Deltas) (Key × Column)) (old mid : Deltas) → ArePushed pushed on first then (stacked stack.old) a b old mid → StandsOrFails result (beside a b) old (stacked stack.new) }
{
    pushed?;
    on?;
    stack.compose(spare, first, then)?;
    Ok(())
}

// Reads the records of a walk and puts their composition on top. A walk that can be cut is read in two, so that the bytes of
// what is in front are decoded and given back before what is behind is read.
fn push_walk<R: Threads, D: Disk>(
    rt: &R,
    alloc: Global,
    index: &Index,
    disk: &mut D,
    name_count: u32,
    walk: &[Edge],
    cols: Columns,
    stack: &mut DeltaStack,
    spare: &mut DeltaStack,
) -> Result<Result<(), FoldFault>, FetchFault>
    requires kept { All (λ (e : Edge). IsKept index.now.opening e.via) walk.now }
    requires entered { HoldsWhatIsEntered [] walk.now }
    requires image { IfSome (D.image disk.old) (λ image. IsOpenedAs image index.now.opening) }
    ensures pushed { IfOk result (λ pushed. HasParts (D.image disk.old) index.now.opening cols walk.now (λ parts. StandsOrFails pushed (parts_in name_count parts) (stacked stack.old) (stacked stack.new))) }
    ensures takes { OnOk result (IfSome (D.image disk.old) (λ image. Takes (entered_length (kept_in image index.now.opening) cols walk.now) (D.taken disk.old) (D.taken disk.new))) }
    ensures most { IfSome (D.image disk.old) (λ image. TakesAtMost (entered_length (kept_in image index.now.opening) cols walk.now) (D.taken disk.old) (D.taken disk.new)) }

    // errors
    ensures cause { IsErrOf result FetchFault.Disk → Fails D.Disk disk.old disk.new }

    // frame
    ensures frame { ReadsDisk D.Disk disk.old disk.new }
{
    let Some(middle) = cut_of(walk) else {
        let mut parts = fetch_walk(alloc, index, disk, walk, cols)?;
        return Ok(push_composed(rt, alloc, name_count, &mut parts, stack, spare));
    };
    let (left, right) = walk.split_at(middle);
    let first = stack.height();
    let pushed = push_walk(rt, alloc, index, disk, name_count, left, cols, stack, spare)?;
    let then = stack.height();
    // What is behind a damaged record is read too: the bytes that are read are those of the walk, whatever they spell.
    let on = push_walk(
        rt, alloc, index, disk, name_count, right, cols, stack, spare,
    )?;
    Ok(compose_both(stack, spare, first, then, pushed, on))
}

/// Reads the records of a walk through an index, as `fetch_walk` does, and composes them as they are read, over so many
/// names and in this thread alone. What they name is decoded and composed in one memory, beside which stand the bytes that
/// were read and are not decoded yet, and of two compositions that become one what the later names. The bytes of each part
/// are given back once they are decoded, and those in front before those behind are read, where the walk can be cut: where
/// what is behind holds no record that only what is in front enters.
///
/// `Damaged` names the first part, and of it the first column, that is damaged, exactly where one is; all records are
/// read then as well. `FetchFault::Disk` where the disk failed, `FetchFault::Memory` for want of memory to read,
/// `FoldFault::Memory` for want of memory to compose.
pub fn fold_walk<R: Threads, D: Disk>(
    rt: &R,
    alloc: Global,
    index: &Index,
    disk: &mut D,
    name_count: u32,
    walk: &[Edge],
    cols: Columns,
) -> Result<Result<Delta, FoldFault>, FetchFault>
    requires kept { All (λ (e : Edge). IsKept index.now.opening e.via) walk.now }
    requires entered { HoldsWhatIsEntered [] walk.now }
    requires image { IfSome (D.image disk.old) (λ image. IsOpenedAs image index.now.opening) }
    ensures folded { IfOk result (λ folded. HasParts (D.image disk.old) index.now.opening cols walk.now (λ parts. Folds folded (parts_in name_count parts))) }
    ensures takes { OnOk result (IfSome (D.image disk.old) (λ image. Takes (entered_length (kept_in image index.now.opening) cols walk.now) (D.taken disk.old) (D.taken disk.new))) }
    ensures most { IfSome (D.image disk.old) (λ image. TakesAtMost (entered_length (kept_in image index.now.opening) cols walk.now) (D.taken disk.old) (D.taken disk.new)) }

    // errors
    ensures cause { IsErrOf result FetchFault.Disk → Fails D.Disk disk.old disk.new }

    // frame
    ensures frame { ReadsDisk D.Disk disk.old disk.new }
{
    let mut stack = DeltaStack::new(alloc);
    let mut spare = DeltaStack::new(alloc);
    let pushed = push_walk(
        rt, alloc, index, disk, name_count, walk, cols, &mut stack, &mut spare,
    )?;
    Ok(match pushed {
        Ok(()) => Ok(stack.into_delta()),
        Err(fault) => Err(fault),
    })
}
