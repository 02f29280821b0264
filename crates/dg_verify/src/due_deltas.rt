//! The tops and downs that the events of a file determine.

ghost use Rattle.std.specs.Prelude.{◌≡◌, ◌≤◌, ◌+◌, ◌-◌, [], IfErr, IfOk, drop, length, map, take, true};
ghost use Rattle.std.specs.List.{All};
ghost use Rattle.dg_build.specs.declared.fault.BuildFault.TheVariants.{Memory};
ghost use Rattle.dg_columns.specs.NamesInRange.{NamesFit};
ghost use Rattle.dg_graph.specs.declared.event.Event.{Event};
ghost use Rattle.dg_graph.specs.ExactEvents.{AreChangesOf};
ghost use Rattle.dg_history.specs.History.{are_parameters};
ghost use Rattle.dg_history.specs.declared.limits.TheConstants.{EVENTS_MAX};
ghost use Rattle.dg_index.specs.FileOfHistory.{stored};
ghost use Rattle.dg_index.specs.Hierarchy.{leaves};
ghost use Rattle.dg_index.specs.IndexRecords.{deltas_due, record_among};

use crate::times::{first_time, last_time};
use dg_build::{BuildFault, Segment, build};
use dg_catalogue::{keys_due, leaves};
use dg_graph::Event;
use dg_history::{Key, Params};
use dg_set::Set;
use std::alloc::{AllocError, Global};

/// The tops and downs that events determine: their keys, and a segment that has their columns in the order of the keys.
#[derive(Drop)]
pub struct DueDeltas {
    /// The keys, by height and node, the top of a height before its downs.
    pub keys: Vec<Key>,
    /// The segment of all events as one batch.
    pub segment: Segment,
}

// The keys behind the first `lists`, without the last.
fn between(keys: &[Key], lists: usize) -> &[Key]
    requires { lists + 1 ≤ length keys.now }
    ensures { result.now ≡ take (length keys.now - 1 - lists) (drop lists keys.now) }
{
    &keys[lists..keys.len() - 1]
}

// The keys of the tops and downs of an index of so many events.
fn delta_keys(alloc: Global, params: Params, events: u64) -> Result<Vec<Key>, AllocError>
    requires parameters { are_parameters params.l params.k ≡ true }
    requires few { events ≤ EVENTS_MAX }
    ensures { IfOk result (λ keys. keys.items ≡ deltas_due params.k 0 (leaves params events)) }
{
    let keys = keys_due(alloc, params, 0, events, 0)?;
    let lists = leaves(params, events) as usize;
    // The last key is that of the piece.
    Vec::from_slice(alloc, between(&keys, lists))
}

/// The tops and downs that the events determine, where each is exact after those before it. For other events nothing is
/// said of what is made. `BuildFault::Memory` for want of memory; `BuildFault::Wide` comes of other events alone.
pub fn due_deltas(alloc: Global, params: Params, events: &[Event]) -> Result<DueDeltas, BuildFault>
    requires parameters { are_parameters params.l params.k ≡ true }
    requires few { length events.now ≤ EVENTS_MAX }
    requires fit { All (λ (e : Event). NamesFit e.body) events.now }
    ensures keys { IfOk result (λ due. due.keys.items ≡ deltas_due params.k 0 (leaves params (length events.now))) }
    ensures deltas { IfOk result (λ due. AreChangesOf [] events.now → due.segment.deltas ≡ map (λ k. stored (record_among params events.now [] k)) due.keys.items) }
    ensures fault { IfErr result (λ fault. AreChangesOf [] events.now → fault ≡ Memory) }
{
    let count = events.len() as u64;
    let keys = delta_keys(alloc, params, count)?;
    let bare = Segment::new(alloc, count, first_time(events), last_time(events));
    // Of the segment the deltas alone are looked at, which have no messages.
    let segment = build(
        alloc,
        params,
        false,
        0,
        &[],
        events,
        &Set::new(alloc),
        &[],
        bare,
    )?;
    Ok(DueDeltas { keys, segment })
}
