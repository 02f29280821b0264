//! Writing lists, deltas and the piece of a segment.

ghost use Rattle.std.specs.Prelude.{◌≡◌, ◌≤◌, ◌+◌, ◌*◌, ◌++◌, ◌∷◌, [], false, List, length, map, take, drop, All, IfErr, IfOk, OnOk};
ghost use Rattle.dg_graph.specs.declared.event.Event.{Event};
ghost use Rattle.dg_graph.specs.Composition.{Delta};
ghost use Rattle.dg_history.specs.History.{first_time_of, last_time_from};
ghost use Rattle.dg_columns.specs.NamesInRange.{NamesFit};
ghost use Rattle.dg_index.specs.Hierarchy.{numbers};
ghost use Rattle.dg_index.specs.IndexRecords.{Events};
ghost use Rattle.dg_index.specs.FileOfHistory.{stored};
ghost use Rattle.dg_build.specs.InteriorDeltas.{stored_delta};
ghost use Rattle.dg_build.specs.SpelledRecords.{stored_cut, written_columns, is_wide, IsFaultOfDeltas};

use crate::fault::BuildFault;
use crate::first_list::list_at;
use dg_columns::{write_delta, write_events};
use dg_delta::Delta;
use dg_graph::{Column, Event};
use dg_index::PerColumn;
use dg_segment::Segment;
use std::alloc::{AllocError, Global};

/// The most elements of one set of a delta that its column can count.
const SET_ELEMENTS_MAX: u64 = 4_294_967_295;

// The time of the first event, or 0.
fn first_time(events: &[Event]) -> u64
    ensures { result ≡ first_time_of events.now }
{
    if events.is_empty() { 0 } else { events[0].time }
}

// The time of the last event, or 0.
fn last_time(events: &[Event]) -> u64
    ensures { result ≡ last_time_from 0 events.now }
{
    if events.is_empty() {
        0
    } else {
        events[events.len() - 1].time
    }
}

// The column of the events' messages, which stays empty where messages are not written.
fn message_column(alloc: Global, messages: bool, events: &[Event]) -> Result<Vec<u8>, AllocError>
    requires few { length events.now ≤ 65536 }
    requires names { All (λ e. NamesFit e.body) events.now }
    ensures { IfOk result (λ column. column.items ≡ (written_columns messages (stored (Events events.now))).transient) }
{
    if messages {
        write_events(alloc, events, Column::Transient)
    } else {
        Ok(Vec::new(alloc))
    }
}

// Gives the segment the columns of a closed list.
fn add_list(
    alloc: Global,
    messages: bool,
    events: &[Event],
    segment: &mut Segment,
) -> Result<(), AllocError>
    requires few { length events.now ≤ 65536 }
    requires names { All (λ e. NamesFit e.body) events.now }
    ensures { OnOk result (segment.new ≡ record segment.old { lists = segment.old.lists ++ stored_cut messages events.now ∷ [] }) }
{
    let structure = write_events(alloc, events, Column::Structure)?;
    let node_attrs = write_events(alloc, events, Column::NodeAttr)?;
    let edge_attrs = write_events(alloc, events, Column::EdgeAttr)?;
    let transient = message_column(alloc, messages, events)?;
    let columns = PerColumn {
        structure: structure.as_slice(),
        node_attrs: node_attrs.as_slice(),
        edge_attrs: edge_attrs.as_slice(),
        transient: transient.as_slice(),
    };
    segment.add_list(first_time(events), last_time(events), columns)
}

/// Gives the segment the columns of so many closed lists, of `l` events each: those of the first, and then
/// those cut from the later events; their messages too, or not. An `Err` says that memory ran out, or that the
/// segment would be too long.
pub(crate) fn add_lists(
    alloc: Global,
    messages: bool,
    l: usize,
    count: usize,
    first: &[Event],
    later: &[Event],
    segment: &mut Segment,
) -> Result<(), AllocError>
    requires few { l ≤ 65536 }
    requires first { 1 ≤ count → length first.now ≡ l }
    requires long { count * l ≤ length first.now + length later.now }
    requires first_names { All (λ e. NamesFit e.body) first.now }
    requires later_names { All (λ e. NamesFit e.body) later.now }
    ensures { OnOk result (segment.new ≡ record segment.old { lists = segment.old.lists ++ map (λ i. stored_cut messages (take l (drop (i * l) (first.now ++ later.now)))) (numbers 0 count) }) }
{
    for i in 0..count {
        add_list(alloc, messages, list_at(first, later, l, i), segment)?;
    }
    Ok(())
}

/// Gives the segment the columns of its piece, that of messages too, or not. An `Err` says that memory ran out, or
/// that the segment would be too long.
pub(crate) fn set_piece(
    alloc: Global,
    messages: bool,
    events: &[Event],
    segment: &mut Segment,
) -> Result<(), AllocError>
    requires few { length events.now ≤ 65536 }
    requires names { All (λ e. NamesFit e.body) events.now }
    ensures { OnOk result (segment.new ≡ record segment.old { piece = written_columns messages (stored (Events events.now)) }) }
{
    let structure = write_events(alloc, events, Column::Structure)?;
    let node_attrs = write_events(alloc, events, Column::NodeAttr)?;
    let edge_attrs = write_events(alloc, events, Column::EdgeAttr)?;
    let transient = message_column(alloc, messages, events)?;
    segment.set_piece(PerColumn {
        structure: structure.as_slice(),
        node_attrs: node_attrs.as_slice(),
        edge_attrs: edge_attrs.as_slice(),
        transient: transient.as_slice(),
    })
}

// Whether a set of the delta has too many elements to be written.
fn is_wide(delta: &Delta) -> bool
    ensures { result ≡ is_wide delta.now }
{
    delta.minus().len() > SET_ELEMENTS_MAX || delta.plus().len() > SET_ELEMENTS_MAX
}

// Gives the segment the three columns of a delta, which has no messages.
fn spell_delta(alloc: Global, delta: &Delta, segment: &mut Segment) -> Result<(), AllocError>
    requires { is_wide delta.now ≡ false }
    ensures { OnOk result (segment.new ≡ record segment.old { deltas = segment.old.deltas ++ stored_delta delta.now ∷ [] }) }
{
    let structure = write_delta(alloc, delta, Column::Structure)?;
    let node_attrs = write_delta(alloc, delta, Column::NodeAttr)?;
    let edge_attrs = write_delta(alloc, delta, Column::EdgeAttr)?;
    segment.add_delta(&structure, &node_attrs, &edge_attrs)
}

/// Gives the segment the columns of a delta. `Memory` says that memory ran out, or that the segment would be
/// too long, and `Wide` names the delta, where it has too many elements.
pub(crate) fn add_delta(
    alloc: Global,
    delta: &Delta,
    segment: &mut Segment,
) -> Result<(), BuildFault>
    ensures ok { OnOk result (segment.new ≡ record segment.old { deltas = segment.old.deltas ++ stored_delta delta.now ∷ [] }) }
    ensures narrow { OnOk result (is_wide delta.now ≡ false) }
    ensures fault { IfErr result (λ e. (more : List Delta) → IsFaultOfDeltas (length segment.old.deltas) (delta.now ∷ more) e) }
{
    if is_wide(delta) {
        return Err(BuildFault::Wide(segment.delta_rows().len()));
    }
    spell_delta(alloc, delta, segment)?;
    Ok(())
}
