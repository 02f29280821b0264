//! The events that an index file holds of its own, as far as they were read, and the test of them.

ghost use Rattle.std.specs.Prelude.{◌≡◌, ◌≤◌, ◌++◌, ◌&&◌, [], Bool, List, Ok, OnOk, true, IfOk, nat_le, ℕ};
ghost use Rattle.std.specs.List.{All};
ghost use Rattle.dg_columns.specs.NamesInRange.{NamesFit};
ghost use Rattle.dg_graph.specs.declared.event.Event.{Event};
ghost use Rattle.dg_graph.specs.declared.limits.TheConstants.{TIME_MAX};
ghost use Rattle.dg_graph.specs.Completion.{completes};
ghost use Rattle.dg_graph.specs.Effect.{forwards};
ghost use Rattle.dg_records.specs.EventNames.{EventNamesAreThere};
ghost use Rattle.dg_sound.specs.OwnEvents.{if_right, with_record};
ghost use Rattle.dg_verify.specs.EventTests.{AreRecorded, IsRead, first_unfit, followed, key_at, tested};

use dg_current::Now;
use dg_graph::Event;
use dg_history::Key;
use dg_names::Names;
use dg_start::has_key;
use std::alloc::{AllocError, Global};

/// A record of events that was read.
#[derive(Clone, Copy)]
pub struct ReadRecord {
    /// Its key.
    pub key: Key,
    /// How many events there are up to its last one.
    pub end: usize,
}

/// The events that were read, and the records that they stand in. Whether they may follow one another is not tested
/// yet.
#[derive(Drop)]
pub struct OwnEvents {
    /// The events.
    pub events: Vec<Event>,
    /// Their records, in the order of keys.
    pub records: Vec<ReadRecord>,
}

// Takes the graph past the event, where some change comes to it there. Answers whether one does and the event is
// not earlier than the time.
fn follow(graph: &mut Now, names: &Names, earliest: u64, event: &Event) -> Result<bool, AllocError>
    requires { graph.old.pending ≡ [] }
    ensures right { IfOk result (λ right. right ≡ (completes names.now graph.old.graph event.now.body && nat_le earliest event.now.time)) }
    ensures on { IfOk result (λ right. right ≡ true → graph.new.graph ≡ forwards graph.old.graph event.now) }
    ensures none { graph.new.pending ≡ [] }
{
    if !has_key(names, &event.body) {
        return Ok(false);
    }
    let is_followed = graph.follow(event)?;
    Ok(is_followed && earliest <= event.time)
}

// How many of the events, from the first on, some change comes to after those before them, and are not earlier.
fn followed(alloc: Global, names: &Names, events: &[Event]) -> Result<usize, AllocError>
    ensures { IfOk result (λ count. count ≡ followed names.now [] 0 events.now) }
{
    let mut graph = Now::new(alloc, names.seed());
    let mut time = 0;
    for (count, event) in events.iter().enumerate() {
        let is_right = follow(&mut graph, names, time, event)?;
        if !is_right {
            return Ok(count);
        }
        time = event.time;
    }
    Ok(events.len())
}

// The key of the record that the event of this index stands in.
fn key_at(records: &[ReadRecord], index: usize) -> Option<Key>
    ensures { result ≡ key_at records.now index }
{
    for read in records {
        if index < read.end {
            return Some(read.key);
        }
    }
    None
}

impl OwnEvents {
    /// No events. Takes no memory yet.
    pub fn new(alloc: Global) -> OwnEvents
        ensures none { result.events.items ≡ [] }
        ensures read { (name_count : ℕ) → IsRead name_count result }
    {
        OwnEvents {
            events: Vec::new(alloc),
            records: Vec::new(alloc),
        }
    }

    /// Puts the events of this record behind those that were read.
    pub fn add(&mut self, key: Key, events: &[Event]) -> Result<(), AllocError>
        requires stand { AreRecorded self.old }
        requires fit { All (λ (e : Event). NamesFit e.body) events.now }
        requires timed { All (λ (e : Event). e.time ≤ TIME_MAX) events.now }
        ensures added { OnOk result (self.new.events.items ≡ self.old.events.items ++ events.now) }
        ensures read { OnOk result ((name_count : ℕ) → IsRead name_count self.old → EventNamesAreThere name_count events.now → IsRead name_count self.new) }
        ensures behind { OnOk result ((names : List (List ℕ)) → (right : List Event → Bool) → tested names self.old (with_record names key right self.old.events.items (Ok events.now)) ≡ tested names self.new (if_right (right events.now) key self.new.events.items)) }
    {
        self.events.extend_from_slice(events)?;
        let end = self.events.len();
        self.records.push(ReadRecord { key, end })?;
        Ok(())
    }

    /// The record of the first event that may not stand behind those before it: that no change comes to there, or that
    /// is earlier.
    pub fn first_unfit(&self, alloc: Global, names: &Names) -> Result<Option<Key>, AllocError>
        ensures { IfOk result (λ key. key ≡ first_unfit names.now self.now) }
    {
        let count = followed(alloc, names, &self.events)?;
        Ok(key_at(&self.records, count))
    }
}
