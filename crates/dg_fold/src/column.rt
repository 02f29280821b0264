//! The delta of a part, column by column.

ghost use Rattle.std.specs.Prelude.{◌≡◌, true, false, map, ℕ, List, Option, Ok, Err, IfOk, IfErr, IsTrue, ◌≢◌, OnOk};
ghost use Rattle.dg_columns.specs.ReadFits.{IsIn, joined_columns};
ghost use Rattle.dg_graph.specs.Composition.{Delta};
ghost use Rattle.dg_graph.specs.declared.element.Column.{Column};
ghost use Rattle.dg_graph.specs.declared.placed.Placed.{Placed};
ghost use Rattle.dg_index.specs.IndexRecords.{Exact};
ghost use Rattle.dg_plan.specs.declared.edge.Way.{Way};
ghost use Rattle.dg_fold.specs.PathIndependence.{taken};
ghost use Rattle.dg_fold.specs.Parts.{bytes_in, part_column_in, beside, deltas_in_part, ColumnStandsOnTop, Folds, StandsOnTop, fault_at, taken_as};
ghost use Rattle.dg_delta.specs.Stacks.{stacked};
ghost use Rattle.dg_records.specs.ColumnReads.{is_events};

use crate::fault::FoldFault;
use crate::net::{joined, net_of, turned};
use crate::part::{Bytes, Part};
use dg_columns::{ReadFault, is_delta, join, push_delta, read_delta, read_events};
use dg_delta::{Delta, DeltaStack};
use dg_graph::{Column, Event, Placed};
use dg_history::Key;
use dg_plan::Way;
use dg_records::is_events;
use std::alloc::{AllocError, Global};
use std::thread::Threads;

// The bytes of a column; that of messages is not read.
fn bytes_of(bytes: &Bytes, col: Column) -> &[u8]
    ensures { result.now ≡ bytes_in bytes.now col }
{
    match col {
        Column::Structure => bytes.structure.as_slice(),
        Column::NodeAttr => bytes.node_attr.as_slice(),
        Column::EdgeAttr => bytes.edge_attr.as_slice(),
        Column::Transient => &[],
    }
}

// The fault of a column of the record.
fn fault_of(fault: ReadFault, key: Key, col: Column) -> FoldFault
    ensures { result ≡ fault_at key col fault }
{
    match fault {
        ReadFault::Damaged(_) => FoldFault::Damaged(key, col),
        ReadFault::Memory => FoldFault::Memory,
    }
}

/// The events without their positions.
pub fn events_of(alloc: Global, placed: &[Placed]) -> Result<Vec<Event>, AllocError>
    ensures { IfOk result (λ v. v.items ≡ map (λ (p : Placed). p.event) placed.now) }
{
    let mut events = Vec::with_capacity(alloc, placed.len())?;
    for p in placed {
        events.push(p.event)?;
    }
    Ok(events)
}

// The net of a column of the part, which holds events.
fn events_column<R: Threads>(
    rt: &R,
    alloc: Global,
    name_count: u32,
    part: &Part,
    way: Way,
    until: Option<u64>,
    col: Column,
) -> Result<Delta, FoldFault>
    requires { is_events part.now.key ≡ true }
    ensures { Folds result (part_column_in name_count (taken_as part.now way until) col) }
{
    match read_events(alloc, bytes_of(&part.bytes, col), col, name_count) {
        Ok(placed) => {
            let events = events_of(alloc, &placed)?;
            Ok(net_of(rt, alloc, &events, way, until)?)
        }
        Err(fault) => Err(fault_of(fault, part.key, col)),
    }
}

// The net of the attributes of the part, which holds events.
fn attributes_delta<R: Threads>(
    rt: &R,
    alloc: Global,
    name_count: u32,
    part: &Part,
    way: Way,
    until: Option<u64>,
) -> Result<Delta, FoldFault>
    requires { is_events part.now.key ≡ true }
    ensures { Folds result (beside (part_column_in name_count (taken_as part.now way until) Column.NodeAttr) (part_column_in name_count (taken_as part.now way until) Column.EdgeAttr)) }
{
    let node_attr = events_column(rt, alloc, name_count, part, way, until, Column::NodeAttr)?;
    let edge_attr = events_column(rt, alloc, name_count, part, way, until, Column::EdgeAttr)?;
    Ok(joined(node_attr, edge_attr)?)
}

// The net of the part, which holds events.
fn events_delta<R: Threads>(
    rt: &R,
    alloc: Global,
    name_count: u32,
    part: &Part,
    way: Way,
    until: Option<u64>,
) -> Result<Delta, FoldFault>
    requires { is_events part.now.key ≡ true }
    ensures { Folds result (deltas_in_part name_count (taken_as part.now way until)) }
{
    let structure = events_column(rt, alloc, name_count, part, way, until, Column::Structure)?;
    let attributes = attributes_delta(rt, alloc, name_count, part, way, until)?;
    Ok(joined(structure, attributes)?)
}

// The delta that a column of the part spells, which holds a delta.
fn exact_column(
    alloc: Global,
    name_count: u32,
    part: &Part,
    col: Column,
) -> Result<Delta, FoldFault>
    requires { is_events part.now.key ≡ false }
    ensures ok { IfOk result (λ d. (way : Way) (until : Option ℕ) → part_column_in name_count (taken_as part.now way until) col ≡ Ok (taken way until (Exact d))) }
    ensures inside { IfOk result (λ d. IsIn col d) }
    ensures err { IfErr result (λ f. (way : Way) (until : Option ℕ) → Folds (Err f) (part_column_in name_count (taken_as part.now way until) col)) }
{
    match read_delta(alloc, bytes_of(&part.bytes, col), col, name_count) {
        Ok(delta) => Ok(delta),
        Err(fault) => Err(fault_of(fault, part.key, col)),
    }
}

// The attributes' columns of a part that holds a delta.
#[derive(Drop)]
struct Attributes {
    node_attr: Delta,
    edge_attr: Delta,
}

// The deltas that the attributes' columns of the part spell, which holds a delta.
fn exact_attributes(alloc: Global, name_count: u32, part: &Part) -> Result<Attributes, FoldFault>
    requires { is_events part.now.key ≡ false }
    ensures node_attr { IfOk result (λ a. (way : Way) (until : Option ℕ) → part_column_in name_count (taken_as part.now way until) Column.NodeAttr ≡ Ok (taken way until (Exact a.node_attr))) }
    ensures edge_attr { IfOk result (λ a. (way : Way) (until : Option ℕ) → part_column_in name_count (taken_as part.now way until) Column.EdgeAttr ≡ Ok (taken way until (Exact a.edge_attr))) }
    ensures in_node_attr { IfOk result (λ a. IsIn Column.NodeAttr a.node_attr) }
    ensures in_edge_attr { IfOk result (λ a. IsIn Column.EdgeAttr a.edge_attr) }
    ensures err { IfErr result (λ f. (way : Way) (until : Option ℕ) → Folds (Err f) (beside (part_column_in name_count (taken_as part.now way until) Column.NodeAttr) (part_column_in name_count (taken_as part.now way until) Column.EdgeAttr))) }
{
    let node_attr = exact_column(alloc, name_count, part, Column::NodeAttr)?;
    let edge_attr = exact_column(alloc, name_count, part, Column::EdgeAttr)?;
    Ok(Attributes {
        node_attr,
        edge_attr,
    })
}

// The columns of a delta follow one another, and no element is compared.
fn columns_joined(structure: Delta, attributes: Attributes) -> Result<Delta, AllocError>
    requires structure { IsIn Column.Structure structure }
    requires node_attr { IsIn Column.NodeAttr attributes.node_attr }
    requires edge_attr { IsIn Column.EdgeAttr attributes.edge_attr }
    ensures { IfOk result (λ d. d ≡ joined_columns structure attributes.node_attr attributes.edge_attr) }
{
    join(structure, &attributes.node_attr, &attributes.edge_attr)
}

// The delta of the part, which holds a delta.
fn exact_delta(
    alloc: Global,
    name_count: u32,
    part: &Part,
    way: Way,
    until: Option<u64>,
) -> Result<Delta, FoldFault>
    requires { is_events part.now.key ≡ false }
    ensures { Folds result (deltas_in_part name_count (taken_as part.now way until)) }
{
    let structure = exact_column(alloc, name_count, part, Column::Structure)?;
    let attributes = exact_attributes(alloc, name_count, part)?;
    let delta = columns_joined(structure, attributes)?;
    Ok(turned(alloc, delta, way))
}

/// The delta of a part, taken in this way up to an instant, in place of its own. `Damaged` names the first column that is
/// damaged, exactly where one is.
pub fn part_delta_as<R: Threads>(
    rt: &R,
    alloc: Global,
    name_count: u32,
    part: &Part,
    way: Way,
    until: Option<u64>,
) -> Result<Delta, FoldFault>
    ensures { Folds result (deltas_in_part name_count (taken_as part.now way until)) }
{
    if is_events(part.key) {
        events_delta(rt, alloc, name_count, part, way, until)
    } else {
        exact_delta(alloc, name_count, part, way, until)
    }
}

/// The delta of a part.
pub(crate) fn part_delta<R: Threads>(
    rt: &R,
    alloc: Global,
    name_count: u32,
    part: &Part,
) -> Result<Delta, FoldFault>
    ensures { Folds result (deltas_in_part name_count part.now) }
{
    part_delta_as(rt, alloc, name_count, part, part.way, part.until)
}

// Puts the delta that a column of the part spells on top, turned where the part is taken back.
fn push_column(
    alloc: Global,
    name_count: u32,
    part: &Part,
    col: Column,
    stack: &mut DeltaStack,
) -> Result<(), FoldFault>
    requires kind { is_events part.now.key ≡ false }
    requires way { part.now.way ≢ Way.Same }
    ensures ok { OnOk result (ColumnStandsOnTop name_count part.now col (stacked stack.old) (stacked stack.new)) }
    ensures err { IfErr result (λ f. Folds (Err f) (part_column_in name_count part.now col)) }
{
    let bytes = bytes_of(&part.bytes, col);
    let pushed = match part.way {
        Way::Back => push_delta(
            alloc,
            bytes,
            col,
            name_count,
            &mut stack.plus,
            &mut stack.minus,
        ),
        _ => push_delta(
            alloc,
            bytes,
            col,
            name_count,
            &mut stack.minus,
            &mut stack.plus,
        ),
    };
    match pushed {
        Ok(()) => Ok(()),
        Err(fault) => Err(fault_of(fault, part.key, col)),
    }
}

// Puts the delta of a part that holds one on top.
fn push_exact(
    alloc: Global,
    name_count: u32,
    part: &Part,
    stack: &mut DeltaStack,
) -> Result<(), FoldFault>
    requires kind { is_events part.now.key ≡ false }
    requires way { part.now.way ≢ Way.Same }
    ensures ok { OnOk result (StandsOnTop (deltas_in_part name_count part.now) (stacked stack.old) (stacked stack.new)) }
    ensures err { IfErr result (λ f. Folds (Err f) (deltas_in_part name_count part.now)) }
{
    push_column(alloc, name_count, part, Column::Structure, stack)?;
    push_column(alloc, name_count, part, Column::NodeAttr, stack)?;
    push_column(alloc, name_count, part, Column::EdgeAttr, stack)
}

/// Puts the delta of a part on top.
pub(crate) fn push_part<R: Threads>(
    rt: &R,
    alloc: Global,
    name_count: u32,
    part: &Part,
    stack: &mut DeltaStack,
) -> Result<(), FoldFault>
    ensures ok { OnOk result (StandsOnTop (deltas_in_part name_count part.now) (stacked stack.old) (stacked stack.new)) }
    ensures err { IfErr result (λ f. Folds (Err f) (deltas_in_part name_count part.now)) }
{
    if is_events(part.key) || part.way == Way::Same {
        let delta = part_delta(rt, alloc, name_count, part)?;
        stack.push(&delta)?;
        return Ok(());
    }
    push_exact(alloc, name_count, part, stack)
}

// Whether a column of the part is in order. `false` also where memory ran out.
fn is_sound_column(alloc: Global, name_count: u32, part: &Part, col: Column) -> bool
    ensures { IsTrue result → (list : List Delta) × (part_column_in name_count part.now col ≡ Ok list) }
{
    let bytes = bytes_of(&part.bytes, col);
    if is_events(part.key) {
        read_events(alloc, bytes, col, name_count).is_ok()
    } else {
        is_delta(alloc, bytes, col, name_count)
    }
}

/// Whether no column of a part is damaged. `false` also where memory ran out. What the part does is not
/// composed, and no set is made of what a delta puts in.
pub fn is_sound_part(alloc: Global, name_count: u32, part: &Part) -> bool
    ensures { IsTrue result → (list : List Delta) × (deltas_in_part name_count part.now ≡ Ok list) }
{
    is_sound_column(alloc, name_count, part, Column::Structure)
        && is_sound_column(alloc, name_count, part, Column::NodeAttr)
        && is_sound_column(alloc, name_count, part, Column::EdgeAttr)
}
