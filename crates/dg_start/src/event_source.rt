//! Where the recent events of a history stand in its index: in the pieces behind its last closed list.

ghost use Rattle.std.specs.Prelude.{◌≡◌, ◌≤◌, ◌<◌, ◌+◌, ◌-◌, ◌*◌, ◌/◌, ◌∷◌, ◌++◌, [], map, true, is_some, IfOk, OnOk, slice_get, Some, if◌then◌else◌, ◌==◌};
ghost use Rattle.std.specs.List.{All};
ghost use Rattle.std.specs.Map.{lookup};
ghost use Rattle.dg_history.specs.Keys.{same_key};
ghost use Rattle.dg_history.specs.declared.limits.TheConstants.{EVENTS_MAX};
ghost use Rattle.dg_index.specs.Hierarchy.{leaves};
ghost use Rattle.dg_index.specs.OpenedIndex.{event_total};
ghost use Rattle.dg_start.specs.EventSources.{CanBeRead, source_of};
ghost use Rattle.dg_start.specs.RecentEvents.{piece_source, recent_sources};

use dg_file::Index;
use dg_history::Key;
use dg_index::{BatchEntry, Ends};
use std::alloc::{AllocError, Global};

/// Events that stand in one record of an index.
#[derive(Clone, Copy)]
pub struct EventSource {
    /// The key of the record.
    pub key: Key,
    /// How many events it has.
    pub count: u64,
    /// The instants that each of them lies between.
    pub ends: Ends,
}

// The piece of the batch of this number, behind so many events. Its events lie between the instants of the
// batch, and none is earlier than the last closed list's last.
fn piece_source(index: &Index, number: u32, before: u64, batch: BatchEntry) -> EventSource
    requires list { 1 ≤ index.now.opening.params.l }
    requires few { before + batch.events ≤ EVENTS_MAX }
    ensures { source_of result ≡ piece_source index.now.opening (record {
      number = number;
      count = batch.events - (leaves index.now.opening.params (before + batch.events) * index.now.opening.params.l - before);
      batch = batch;
    }) }
{
    let size = u64::from(index.params().l);
    let closed = (before + batch.events) / size * size;
    EventSource {
        key: Key::Piece(number),
        count: batch.events - closed.saturating_sub(before),
        ends: Ends {
            first: batch.ends.first.max(index.last_list()),
            last: batch.ends.last,
        },
    }
}

// The sources that are recent once there is a batch behind so many events whose piece is this one: those before
// it are no longer recent where the batch closes a list.
fn add_piece(
    found: &mut Vec<EventSource>,
    size: u64,
    before: u64,
    events: u64,
    piece: EventSource,
) -> Result<(), AllocError>
    requires list { 1 ≤ size }
    requires few { before + events ≤ EVENTS_MAX }
    ensures { OnOk result (found.new.items ≡ (if (before + events) / size == before / size then found.old.items else []) ++ piece ∷ []) }
{
    if (before + events) / size != before / size {
        found.clear();
    }
    found.push(piece)?;
    Ok(())
}

/// The recent pieces, in their order.
///
/// An `Err` says that memory ran out.
pub fn recent_sources(alloc: Global, index: &Index) -> Result<Vec<EventSource>, AllocError>
    ensures are { IfOk result (λ found. map source_of found.items ≡ recent_sources index.now.opening) }
    ensures readable { IfOk result (λ found. All (λ s. CanBeRead index.now.opening (source_of s)) found.items) }
{
    index.facts();
    let size = u64::from(index.params().l);
    let mut found = Vec::new(alloc);
    let mut before = 0;
    let mut number = 0;
    while let Some(batch) = index.batch(number) {
        let piece = piece_source(index, number, before, batch);
        add_piece(&mut found, size, before, batch.events, piece)?;
        before += batch.events;
        number += 1;
    }
    Ok(found)
}
