//! What a record does in its way, as one delta.

ghost use Rattle.std.specs.Prelude.{◌≡◌, ℕ, [], ◌∷◌, Option, None, IfOk, IsTrue};
ghost use Rattle.dg_graph.specs.Composition.{Composes};
ghost use Rattle.dg_index.specs.IndexRecords.{Events, Exact};
ghost use Rattle.dg_fold.specs.PathIndependence.{taken};
ghost use Rattle.dg_plan.specs.declared.edge.Way.TheVariants.{Forward};

use dg_delta::Delta;
use dg_graph::Event;
use dg_net::{merge_lists, net_back, net_to};
use dg_plan::Way;
use std::alloc::{AllocError, Global};
use std::thread::Threads;

/// The net of events in their way, of those up to an instant where there is one. An `Err` says that memory
/// ran out.
pub(crate) fn net_of<R: Threads>(
    rt: &R,
    alloc: Global,
    events: &[Event],
    way: Way,
    until: Option<u64>,
) -> Result<Delta, AllocError>
    ensures { IfOk result (λ d. Composes d (taken way until (Events events.now))) }
{
    match way {
        Way::Same => Ok(Delta::new(alloc)),
        Way::Back => net_back(alloc, events),
        Way::Forward => match until {
            Some(t) => net_to(alloc, events, t),
            None => net(rt, alloc, events),
        },
    }
}

// The net of all of the events.
fn net<R: Threads>(rt: &R, alloc: Global, events: &[Event]) -> Result<Delta, AllocError>
    ensures { IfOk result (λ d. Composes d (taken Forward None (Events events.now))) }
{
    let (left, right) = events.split_at(events.len() / 2);
    merge_lists(rt, alloc, left, right)
}

/// The delta in its way.
pub(crate) fn turned(alloc: Global, delta: Delta, way: Way) -> Delta
    ensures { (until : Option ℕ) → Composes result (taken way until (Exact delta)) }
{
    match way {
        Way::Same => Delta::new(alloc),
        Way::Forward => delta,
        Way::Back => delta.reverse(),
    }
}

/// One delta and then another. Where one of them names nothing, nothing is copied; else the first takes the
/// other in, in its own memory where it can. An `Err` says that memory ran out.
pub(crate) fn joined(first: Delta, then: Delta) -> Result<Delta, AllocError>
    ensures { IfOk result (λ d. Composes d (first ∷ then ∷ [])) }
{
    if is_empty(&then) {
        return Ok(first);
    }
    if is_empty(&first) {
        return Ok(then);
    }
    first.into_composed(&then)
}

/// One delta and then another, of which the first is used on. Where the first names nothing, nothing is
/// copied. An `Err` says that memory ran out.
pub(crate) fn joined_on(first: &Delta, then: Delta) -> Result<Delta, AllocError>
    ensures { IfOk result (λ d. Composes d (first.now ∷ then ∷ [])) }
{
    if is_empty(first) {
        return Ok(then);
    }
    if is_empty(&then) {
        return first.copy();
    }
    first.compose(&then)
}

// Whether the delta names nothing.
fn is_empty(delta: &Delta) -> bool
    ensures { IsTrue result → (delta.now ≡ record { minus = []; plus = [] }) }
{
    delta.minus().len() == 0 && delta.plus().len() == 0
}
