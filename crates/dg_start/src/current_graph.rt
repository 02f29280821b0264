//! Testing the graph behind the last closed list, and the recent events that lead it on.

ghost use Rattle.std.specs.Prelude.{◌≡◌, ◌<◌, ◌+◌, ◌^◌, [], IfOk, IfErr, None, length, true};
ghost use Rattle.dg_graph.specs.Effect.{forwards};
ghost use Rattle.dg_graph.specs.Graph.{IsGraph};
ghost use Rattle.dg_graph.specs.Replay.{replay_from};
ghost use Rattle.dg_start.specs.RecentEvents.{first_wrong_event, is_right};
ghost use Rattle.dg_start.specs.EventSources.{ArePartedBy, FirstWrong, bounded, sources_in};
ghost use Rattle.dg_start.specs.Refusals.{RefusesEvents};

use crate::event_source::EventSource;
use crate::fault::StartFault;
use crate::keys::has_key;
use dg_current::Now;
use dg_graph::Event;
use dg_index::Ends;
use dg_names::Names;
use dg_set::Set;
use std::alloc::{AllocError, Global};

// Takes the graph past the event, where some change comes to it there. Answers whether one does and
// its time lies between these instants.
fn follow(current: &mut Now, names: &Names, ends: Ends, event: &Event) -> Result<bool, AllocError>
    requires { current.old.pending ≡ [] }
    ensures right { IfOk result (λ right. right ≡ is_right names.now current.old.graph (ends, event.now)) }
    ensures on { IfOk result (λ right. right ≡ true → current.new.graph ≡ forwards current.old.graph event.now) }
    ensures none { current.new.pending ≡ [] }
{
    if !has_key(names, &event.body) {
        return Ok(false);
    }
    let is_followed = current.follow(event)?;
    Ok(is_followed && ends.first <= event.time && event.time <= ends.last)
}

// The number of the first of the events of one source that is not right, where they are numbered on from this one
// and each has to lie between these instants. Where all are right, they lead the graph on.
fn wrong_within(
    current: &mut Now,
    names: &Names,
    ends: Ends,
    first: u64,
    events: &[Event],
) -> Result<Option<u64>, AllocError>
    requires none_pending { current.old.pending ≡ [] }
    requires numbers { first + length events.now < 2 ^ 64 }
    ensures wrong { IfOk result (λ wrong. FirstWrong names.now ends first current.old.graph events.now wrong current.new.graph) }
    ensures led { IfOk result (λ wrong. wrong ≡ None → current.new.graph ≡ replay_from current.old.graph events.now) }
    ensures none { current.new.pending ≡ [] }
{
    let mut number = first;
    for event in events {
        let is_right = follow(current, names, ends, event)?;
        if !is_right {
            return Ok(Some(number));
        }
        number += 1;
    }
    Ok(None)
}

// The number of the first of the events of these sources that is not right, where they are numbered on from this
// one. Where all are right, they lead the graph on.
fn first_wrong(
    current: &mut Now,
    names: &Names,
    first: u64,
    sources: &[EventSource],
    events: &[Event],
) -> Result<Option<u64>, AllocError>
    requires none_pending { current.old.pending ≡ [] }
    requires numbers { first + length events.now < 2 ^ 64 }
    requires parted { ArePartedBy (sources_in sources.now) events.now }
    ensures wrong { IfOk result (λ wrong. wrong ≡ first_wrong_event names.now first current.old.graph (bounded (sources_in sources.now) events.now)) }
    ensures led { IfOk result (λ wrong. wrong ≡ None → current.new.graph ≡ replay_from current.old.graph events.now) }
    ensures none { current.new.pending ≡ [] }
{
    let mut at = 0;
    for source in sources {
        let end = at + source.count as usize;
        let number = first + at as u64;
        let own = &events[at..end];
        let wrong = wrong_within(current, names, source.ends, number, own)?;
        if wrong.is_some() {
            return Ok(wrong);
        }
        at = end;
    }
    Ok(None)
}

/// The current graph: that of the set, which is kept as it is, past the events of these sources, which are numbered on
/// from this one.
///
/// `StartFault::NotGraph` where the set is no graph, `StartFault::BadRecent` with the number of the first event
/// that no change comes to or that is out of its time, `StartFault::Memory` for want of memory.
pub fn current_graph(
    alloc: Global,
    names: &Names,
    set: Set,
    first: u64,
    sources: &[EventSource],
    events: &[Event],
) -> Result<Now, StartFault>
    requires numbers { first + length events.now < 2 ^ 64 }
    requires parted { ArePartedBy (sources_in sources.now) events.now }
    ensures from { IfOk result (λ now. IsGraph set) }
    ensures right { IfOk result (λ now. first_wrong_event names.now first set (bounded (sources_in sources.now) events.now) ≡ None) }
    ensures led { IfOk result (λ now. now.graph ≡ replay_from set events.now) }
    ensures none { IfOk result (λ now. now.pending ≡ []) }
    ensures refused { IfErr result (RefusesEvents names.now first set (bounded (sources_in sources.now) events.now)) }
{
    let mut current = Now::from_set(alloc, names.seed(), set)?;
    match first_wrong(&mut current, names, first, sources, events)? {
        None => Ok(current),
        Some(number) => Err(StartFault::BadRecent(number)),
    }
}
