//! In which record of an index an event stands.
ghost use Rattle.std.specs.Prelude.{◌≡◌, ◌<◌, ◌≤◌, ◌-◌, ◌+◌, ◌*◌, max};
ghost use Rattle.dg_history.specs.declared.limits.TheConstants.{EVENTS_MAX};
ghost use Rattle.dg_history.specs.declared.node.Key.TheVariants as key;
ghost use Rattle.dg_index.specs.Hierarchy.{leaves};
ghost use Rattle.dg_spans.specs.Stretches.{HasEvent, HasNumber, IsPlaced, closed_events, record_of, record_start};
ghost use Rattle.dg_start.specs.EventSources.{CanBeRead, source_of};

use dg_catalogue::leaves;
use dg_file::Index;
use dg_history::Key;
use dg_index::BatchEntry;
use dg_start::EventSource;

/// A batch of an index.
#[derive(Clone, Copy)]
pub struct BatchPlace {
    /// Its number, from 0.
    pub number: u32,
    /// How many events stand in the batches before it.
    pub before: u64,
    /// What the index keeps of it.
    pub batch: BatchEntry,
}

/// The record in which an event stands.
#[derive(Clone, Copy)]
pub struct EventRecord {
    /// The number of its first event.
    pub start: u64,
    /// The record, with how many events it has.
    pub source: EventSource,
}

// How many events the closed lists have.
fn closed_events(index: &Index) -> u64
    ensures closed { result ≡ closed_events index.now.opening }
    ensures few { result ≤ EVENTS_MAX }
{
    index.facts();
    u64::from(leaves(index.params(), index.events_len())) * u64::from(index.params().l)
}

// The closed list that has the event of this number.
fn list_at(index: &Index, place: BatchPlace, at: u64) -> EventRecord
    requires closed { at < closed_events index.now.opening }
    ensures start { result.start ≡ leaves index.now.opening.params at * index.now.opening.params.l }
    ensures source { source_of result.source ≡ record { key = key.List (leaves index.now.opening.params at); count = index.now.opening.params.l; ends = place.batch.ends } }
    ensures readable { CanBeRead index.now.opening (source_of result.source) }
    ensures here { HasNumber result.start result.source.count at }
{
    index.facts();
    let size = u64::from(index.params().l);
    let number = leaves(index.params(), at);
    EventRecord {
        start: u64::from(number) * size,
        source: EventSource {
            key: Key::List(number),
            count: size,
            ends: place.batch.ends,
        },
    }
}

// The piece of the batch, where the closed lists have so many events.
fn piece_at(index: &Index, place: BatchPlace, closed: u64, at: u64) -> EventRecord
    requires placed { IsPlaced index.now.opening place }
    requires within { HasEvent place at }
    requires closed { closed ≤ at }
    ensures start { result.start ≡ max place.before closed }
    ensures source { source_of result.source ≡ record { key = key.Piece place.number; count = place.before + place.batch.events - max place.before closed; ends = place.batch.ends } }
    ensures readable { CanBeRead index.now.opening (source_of result.source) }
    ensures here { HasNumber result.start result.source.count at }
{
    index.facts();
    let start = place.before.max(closed);
    EventRecord {
        start,
        source: EventSource {
            key: Key::Piece(place.number),
            count: place.before + place.batch.events - start,
            ends: place.batch.ends,
        },
    }
}

/// The record that has the event of this number, which is one of the batch: a closed list where one has it, else the piece
/// of the batch.
pub fn record_at(index: &Index, place: BatchPlace, at: u64) -> EventRecord
    requires placed { IsPlaced index.now.opening place }
    requires within { HasEvent place at }
    ensures start { result.start ≡ record_start index.now.opening place at }
    ensures source { source_of result.source ≡ record_of index.now.opening place at }
    ensures readable { CanBeRead index.now.opening (source_of result.source) }
    ensures here { HasNumber result.start result.source.count at }
{
    let closed = closed_events(index);
    if at < closed {
        list_at(index, place, at)
    } else {
        piece_at(index, place, closed, at)
    }
}
