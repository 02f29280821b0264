//! The net of a list of events, forwards up to an instant and whole, or back.
ghost use Rattle.std.specs.Prelude.{◌≡◌, ◌++◌, List, filter, map, reverse, IfOk};
ghost use Rattle.dg_graph.specs.declared.element.Element.{Element};
ghost use Rattle.dg_graph.specs.Composition.{Composes, applied, reversed};
ghost use Rattle.dg_graph.specs.Elements.{IsSet};
ghost use Rattle.dg_graph.specs.Replay.{events_until, replay_from};
ghost use Rattle.dg_graph.specs.ExactEvents.{effect_of, AreChangesOf};
ghost use Rattle.dg_net.specs.Lists.{counts};

use crate::marks::{marks_back, marks_on, net_of};
use dg_delta::Delta;
use dg_event::Event;
use std::alloc::{AllocError, Global};
use std::thread::Threads;

/// The net of the events up to the instant `t`, and with it. The times may be in any order. An `Err`
/// says that memory ran out.
pub fn net_to(alloc: Global, events: &[Event], t: u64) -> Result<Delta, AllocError>
    ensures composes { IfOk result (λ d. Composes d (map effect_of (events_until events.now t))) }
    ensures applies { IfOk result (λ d. (set : List Element) → IsSet set
        → applied d set ≡ replay_from set (events_until events.now t)) }
{
    net_on(alloc, events, Some(t))
}

/// The net of all the events, in their order. An `Err` says that memory ran out.
pub fn whole_net(alloc: Global, events: &[Event]) -> Result<Delta, AllocError>
    ensures composes { IfOk result (λ d. Composes d (map effect_of events.now)) }
    ensures applies { IfOk result (λ d. (set : List Element) → IsSet set → applied d set ≡ replay_from set events.now) }
{
    net_on(alloc, events, None)
}

/// The net that leads back over the events, the last one first. An `Err` says that memory ran out.
pub fn net_back(alloc: Global, events: &[Event]) -> Result<Delta, AllocError>
    ensures composes { IfOk result (λ d. Composes d (map (λ e. reversed (effect_of e)) (reverse events.now))) }
    ensures leads_back { IfOk result (λ d. (set : List Element) → IsSet set → AreChangesOf set events.now
        → applied d (replay_from set events.now) ≡ set) }
{
    let marks = marks_back(alloc, events)?;
    net_of(alloc, marks)
}

/// The net of the events of `left` and then those of `right`. The two nets rest on nothing of each
/// other: the runtime is taken so that they can be made in two threads, and today they are made one
/// after the other. An `Err` says that memory ran out.
pub fn merge_lists<R: Threads>(
    _rt: &R,
    alloc: Global,
    left: &[Event],
    right: &[Event],
) -> Result<Delta, AllocError>
    ensures composes { IfOk result (λ d. Composes d (map effect_of (left.now ++ right.now))) }
    ensures applies { IfOk result (λ d. (set : List Element) → IsSet set
        → applied d set ≡ replay_from set (left.now ++ right.now)) }
{
    let first = net_on(alloc, left, None)?;
    let then = net_on(alloc, right, None)?;
    first.compose(&then)
}

/// The net of the events up to the instant, or of all where there is none.
fn net_on(alloc: Global, events: &[Event], until: Option<u64>) -> Result<Delta, AllocError>
    ensures { IfOk result (λ d. Composes d (map effect_of (filter (counts until) events.now))) }
{
    let marks = marks_on(alloc, events, until)?;
    net_of(alloc, marks)
}
