//! The listing of the records of an index.

ghost use Rattle.std.specs.Prelude.{◌≡◌, ◌≤◌, ◌<◌, ◌+◌, ◌*◌, ◌/◌, ◌^◌, ◌++◌, map, IfOk, OnOk};
ghost use Rattle.std.specs.List.{flat_map};
ghost use Rattle.dg_graph.specs.declared.function.Function.{Function};
ghost use Rattle.dg_history.specs.declared.node.Key.TheVariants as key;
ghost use Rattle.dg_index.specs.Hierarchy.{numbers};
ghost use Rattle.dg_index.specs.IndexRecords.{heights, keys_of};
ghost use Rattle.dg_index.specs.OpenedIndex.{event_total};
ghost use Rattle.dg_ask.specs.RecordListing.{down_keys, held_line, listing_of};
ghost use Rattle.dg_catalogue.specs.Shapes.{IsShape, made_with};

use dg_catalogue::{Catalogue, Shape};
use dg_file::Index;
use dg_history::{Key, Params};
use dg_index::PerColumn;
use dg_machine::{BodyLine, BodyLines, Head, Reply};
use dg_retrieval::shape_of;
use std::alloc::{AllocError, Global};

// The line of a record. Where the key is not held, no column has a byte.
fn record_line(catalogue: &Catalogue, key: Key) -> BodyLine
    ensures { result ≡ held_line catalogue.now.entries key }
{
    let lengths = match catalogue.entry(key) {
        Some(entry) => entry.lengths,
        None => PerColumn {
            structure: 0,
            node_attrs: 0,
            edge_attrs: 0,
            transient: 0,
        },
    };
    BodyLine::Sizes { key, lengths }
}

// Adds the lines of the lists.
fn add_lists(
    lines: &mut Vec<BodyLine>,
    catalogue: &Catalogue,
    leaves: u32,
) -> Result<(), AllocError>
    ensures { OnOk result (lines.new.items ≡ lines.old.items ++ map (held_line catalogue.now.entries) (map (λ i. key.List i) (numbers 0 leaves))) }
{
    for list in 0..leaves {
        lines.push(record_line(catalogue, Key::List(list)))?;
    }
    Ok(())
}

// Adds the lines of the deltas from the root, one for each height.
fn add_tops(
    lines: &mut Vec<BodyLine>,
    catalogue: &Catalogue,
    leaves: u32,
    arity: u32,
) -> Result<(), AllocError>
    requires leaves { leaves < 2 ^ 31 }
    requires low { 2 ≤ arity }
    requires high { arity ≤ 64 }
    ensures { OnOk result (lines.new.items ≡ lines.old.items ++ map (held_line catalogue.now.entries) (map (λ h. key.Top h) (heights arity leaves))) }
{
    let mut below = 0;
    let mut width = arity as u64;
    while width <= leaves as u64 {
        lines.push(record_line(catalogue, Key::Top(below + 1)))?;
        below += 1;
        width *= arity as u64;
    }
    Ok(())
}

// Adds the lines of the deltas from the interior nodes of a height to so many children.
fn add_height(
    lines: &mut Vec<BodyLine>,
    catalogue: &Catalogue,
    height: u32,
    children: u32,
) -> Result<(), AllocError>
    requires few { children < 2 ^ 31 }
    ensures { OnOk result (lines.new.items ≡ lines.old.items ++ map (held_line catalogue.now.entries) (map (λ c. key.Down height c) (numbers 1 children))) }
{
    for child in 0..children {
        lines.push(record_line(catalogue, Key::Down(height, child + 1)))?;
    }
    Ok(())
}

// The children of the interior nodes of a height, whose nodes stand above `width` leaves each.
fn children_at(leaves: u32, arity: u32, width: u64) -> u32
    requires leaves { leaves < 2 ^ 31 }
    requires some { 1 ≤ width }
    requires wide { arity ≤ width }
    ensures are { result ≡ leaves / width * arity }
    ensures few { result < 2 ^ 31 }
{
    let nodes = u64::from(leaves) / width;
    (nodes * u64::from(arity)) as u32
}

// Adds the lines of the deltas from interior nodes to their children.
fn add_downs(
    lines: &mut Vec<BodyLine>,
    catalogue: &Catalogue,
    leaves: u32,
    arity: u32,
) -> Result<(), AllocError>
    requires leaves { leaves < 2 ^ 31 }
    requires low { 2 ≤ arity }
    requires high { arity ≤ 64 }
    ensures { OnOk result (lines.new.items ≡ lines.old.items ++ map (held_line catalogue.now.entries) (flat_map (down_keys arity leaves) (heights arity leaves))) }
{
    let mut below = 0;
    let mut width = arity as u64;
    while width <= leaves as u64 {
        let children = children_at(leaves, arity, width);
        add_height(lines, catalogue, below + 1, children)?;
        below += 1;
        width *= arity as u64;
    }
    Ok(())
}

// A line for each list, top and down of an index of this shape, in key order, with the bytes of its
// four columns. Where the catalogue does not hold one of them, its line has no byte.
fn record_lines(
    alloc: Global,
    shape: Shape,
    catalogue: &Catalogue,
) -> Result<Vec<BodyLine>, AllocError>
    requires { IsShape shape }
    ensures { IfOk result (λ lines. (f : Function) → lines.items ≡ map (held_line catalogue.now.entries) (keys_of (made_with f shape) shape.events)) }
{
    let leaves = shape.leaves();
    let mut lines = Vec::with_capacity(alloc, catalogue.len())?;
    add_lists(&mut lines, catalogue, leaves)?;
    add_tops(&mut lines, catalogue, leaves, shape.k)?;
    add_downs(&mut lines, catalogue, leaves, shape.k)?;
    Ok(lines)
}

/// The reply with the parameters of an index, and a line for each of its records.
pub fn tree_reply(alloc: Global, index: &Index) -> Result<Reply, AllocError>
    ensures { IfOk result (λ reply. reply ≡ listing_of index.now.opening (event_total index.now.opening.batches)) }
{
    index.facts();
    let events = index.events_len();
    let shape = shape_of(index);
    let lines = record_lines(alloc, shape, index.catalogue())?;
    let Params { l, k, function } = index.params();
    Ok(Reply::Answered {
        head: Head::Tree {
            l,
            k,
            function,
            events,
            leaves: shape.leaves(),
            records: lines.len() as u64,
        },
        body: BodyLines::from_vec(lines),
    })
}
