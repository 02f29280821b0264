//! Merging the events of the four columns to the list that they come from.

ghost use Rattle.std.specs.Prelude.{◌≡◌, Some, None, drop, IfOk, IfSome, IsErrOf};
ghost use Rattle.std.specs.Option.{option_and_then};
ghost use Rattle.dg_graph.specs.ColumnMerge.{if_never_fall, merged};
ghost use Rattle.dg_columns.specs.Rows.{filled, events_in_row};
ghost use Rattle.dg_columns.specs.MergeWalk.{stands_first, step_at, walked};
ghost use Rattle.dg_columns.specs.declared.column_merge.MergeFault.TheVariants.{Memory};

use dg_graph::{Event, Placed};
use std::alloc::{AllocError, AllocFailed, Global};
use thiserror::Error;

/// What keeps four columns from being one list of events.
#[derive(Clone, Copy, Debug, PartialEq, Eq, Error)]
pub enum MergeFault {
    /// The positions of the events are not those from 0 to one less than the length of the list, each
    /// once; or the times fall somewhere in the order of the positions.
    #[error("the columns are not those of one list of events")]
    Positions,
    /// Memory ran out.
    #[error("out of memory")]
    Memory,
}

impl From<AllocError> for MergeFault {
    ghost from_gives = { λ _ e. e ≡ Memory };

    fn from(_error: AllocError) -> MergeFault {
        MergeFault::Memory
    }
}

impl<T: Drop> From<AllocFailed<T>> for MergeFault {
    ghost from_gives = { λ _ e. e ≡ Memory };

    fn from(_error: AllocFailed<T>) -> MergeFault {
        MergeFault::Memory
    }
}

// The next events of the four columns.
#[derive(Clone, Copy)]
struct Cursors {
    structure: usize,
    node_attrs: usize,
    edge_attrs: usize,
    transient: usize,
}

// Whether the next event of the column stands at the position.
fn stands_next(column: &[Placed], next: usize, position: usize) -> bool
    ensures { result ≡ stands_first position (drop next column.now) }
{
    next < column.len() && usize::from(column[next].at) == position
}

// The event at the position, where it is the next of its column, and what is next behind it.
fn step_at(
    structure: &[Placed],
    node_attrs: &[Placed],
    edge_attrs: &[Placed],
    transient: &[Placed],
    next: Cursors,
    position: usize,
) -> Option<(Placed, Cursors)>
    ensures { IfSome result (λ p. step_at position (drop next.structure structure.now) (drop next.node_attrs node_attrs.now) (drop next.edge_attrs edge_attrs.now) (drop next.transient transient.now)
        ≡ Some (record { here = p.0; structure = drop p.1.structure structure.now; node_attrs = drop p.1.node_attrs node_attrs.now; edge_attrs = drop p.1.edge_attrs edge_attrs.now; transient = drop p.1.transient transient.now })) }
{
    if stands_next(structure, next.structure, position) {
        let after = Cursors {
            structure: next.structure + 1,
            ..next
        };
        return Some((structure[next.structure], after));
    }
    if stands_next(node_attrs, next.node_attrs, position) {
        let after = Cursors {
            node_attrs: next.node_attrs + 1,
            ..next
        };
        return Some((node_attrs[next.node_attrs], after));
    }
    if stands_next(edge_attrs, next.edge_attrs, position) {
        let after = Cursors {
            edge_attrs: next.edge_attrs + 1,
            ..next
        };
        return Some((edge_attrs[next.edge_attrs], after));
    }
    if stands_next(transient, next.transient, position) {
        let after = Cursors {
            transient: next.transient + 1,
            ..next
        };
        return Some((transient[next.transient], after));
    }
    None
}

// The events of columns whose positions rise, in one walk. `None` where a position is missed or a
// time falls.
fn merge_rising(
    alloc: Global,
    structure: &[Placed],
    node_attrs: &[Placed],
    edge_attrs: &[Placed],
    transient: &[Placed],
    len: usize,
) -> Result<Option<Vec<Event>>, AllocError>
    ensures { IfOk result (λ found. IfSome found (λ events. walked len 0 0 structure.now node_attrs.now edge_attrs.now transient.now ≡ Some events.items)) }
{
    let mut events = Vec::with_capacity(alloc, len)?;
    let mut next = Cursors {
        structure: 0,
        node_attrs: 0,
        edge_attrs: 0,
        transient: 0,
    };
    let mut earliest = 0;
    for position in 0..len {
        let Some((here, after)) = step_at(
            structure, node_attrs, edge_attrs, transient, next, position,
        ) else {
            return Ok(None);
        };
        if here.event.time < earliest {
            return Ok(None);
        }
        next = after;
        earliest = here.event.time;
        events.push(here.event)?;
    }
    Ok(Some(events))
}

// Puts the events into the empty slots of the row. An event whose position is past the row, or is
// taken, is left out.
fn fill(row: &mut [Option<Event>], placed: &[Placed])
    ensures { row.new ≡ filled 0 row.old placed.now }
{
    for event in placed {
        let position = usize::from(event.at);
        if position < row.len() && row[position].is_none() {
            row[position] = Some(event.event);
        }
    }
}

// The events of the slots, where none is empty and the times do not fall.
fn in_order(alloc: Global, row: &[Option<Event>]) -> Result<Vec<Event>, MergeFault>
    ensures ok { IfOk result (λ events. option_and_then if_never_fall (events_in_row row.now) ≡ Some events.items) }
    ensures positions { IsErrOf result MergeFault.Positions → option_and_then if_never_fall (events_in_row row.now) ≡ None }
{
    let mut events = Vec::with_capacity(alloc, row.len())?;
    let mut earliest = 0;
    for slot in row {
        let Some(event) = *slot else {
            return Err(MergeFault::Positions);
        };
        if event.time < earliest {
            return Err(MergeFault::Positions);
        }
        earliest = event.time;
        events.push(event)?;
    }
    Ok(events)
}

/// The events of the four columns as one list of `len` events, in the order of their positions.
/// `Positions` says that the columns have no such list: there are more or fewer events, a position is
/// missing, taken twice or not below `len`, or the times fall. `Memory` says that memory ran out.
pub fn merge(
    alloc: Global,
    structure: &[Placed],
    node_attrs: &[Placed],
    edge_attrs: &[Placed],
    transient: &[Placed],
    len: u32,
) -> Result<Vec<Event>, MergeFault>
    ensures ok { IfOk result (λ events. merged structure.now node_attrs.now edge_attrs.now transient.now len ≡ Some events.items) }
    ensures positions { IsErrOf result MergeFault.Positions → merged structure.now node_attrs.now edge_attrs.now transient.now len ≡ None }
{
    let len = len as usize;
    if structure.len() + node_attrs.len() + edge_attrs.len() + transient.len() != len {
        return Err(MergeFault::Positions);
    }
    if let Some(events) = merge_rising(alloc, structure, node_attrs, edge_attrs, transient, len)? {
        return Ok(events);
    }
    // There are as many events as slots, so where no slot stays empty, no event was left out.
    let mut row = vec![in alloc; None; len]?;
    fill(&mut row, structure);
    fill(&mut row, node_attrs);
    fill(&mut row, edge_attrs);
    fill(&mut row, transient);
    in_order(alloc, &row)
}
