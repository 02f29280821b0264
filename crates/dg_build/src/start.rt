//! The set where the deltas from the root start: where one of them is due, and what it is.

ghost use Rattle.std.specs.Prelude.{◌≡◌, ◌≤◌, ◌↔◌, List, IfOk, IsTrue};
ghost use Rattle.dg_graph.specs.declared.element.Element.{Element};
ghost use Rattle.dg_graph.specs.declared.event.Event.{Event};
ghost use Rattle.dg_graph.specs.Composition.{applied, reversed};
ghost use Rattle.dg_graph.specs.Elements.{IsSet};
ghost use Rattle.dg_graph.specs.ExactEvents.{AreChangesOf};
ghost use Rattle.dg_graph.specs.Replay.{replay_from};
ghost use Rattle.dg_build.specs.OlderSteps.{IsTopDue};
ghost use Rattle.dg_build.specs.GivenDeltas.{gone_back, taken_back};

use dg_delta::Delta;
use dg_event::Event;
use dg_net::net_back;
use dg_set::Set;
use std::alloc::{AllocError, Global};

// Whether an interior node is due between `m` and `after` nodes of a height that is the first of its own.
fn has_top(k: usize, m: usize, after: usize) -> bool
    requires { 2 ≤ k }
    ensures { IsTrue result ↔ IsTopDue k m after }
{
    let mut q = m;
    let mut end = after;
    while end >= k {
        if q < k {
            return true;
        }
        q = q / k;
        end = end / k;
    }
    false
}

/// Whether a batch that takes the leaves from `before` to `after` completes an interior node that is the first of
/// its height. Only then is the current graph asked of `build`.
pub fn is_top_due(arity: u32, before: u32, after: u32) -> bool
    requires { 2 ≤ arity }
    ensures { IsTrue result ↔ IsTopDue arity before after }
{
    has_top(arity as usize, before as usize, after as usize)
}

// Tells the proofs that the set rises strictly. It does nothing.
fn rises(set: &Set)
    ensures { IsSet set.now }
{
    set.items();
}

// The last leaf that was there before, from the current graph, and the events behind that leaf. An `Err` says
// that memory ran out.
fn last_leaf(alloc: Global, now: &Set, recent: &[Event]) -> Result<Set, AllocError>
    ensures is { IfOk result (λ leaf. (set : List Element) → IsSet set → AreChangesOf set recent.now → now.now ≡ replay_from set recent.now → leaf ≡ set) }
    ensures back { IfOk result (λ leaf. leaf ≡ taken_back now.now recent.now) }
{
    rises(now);
    let back = net_back(alloc, recent)?;
    back.apply(now)
}

// The set from which a step leads to this one. An `Err` says that memory ran out.
fn step_back(step: &Delta, set: &Set) -> Result<Set, AllocError>
    ensures { IfOk result (λ earlier. earlier ≡ applied (reversed step.now) set.now) }
{
    set.replaced(step.plus(), step.minus())
}

// The set that the steps lead back to from this one, the last of them first. An `Err` says that memory ran out.
fn back_over(steps: &[Delta], end: Set) -> Result<Set, AllocError>
    ensures { IfOk result (λ start. start ≡ gone_back steps.now end) }
{
    let mut set = end;
    let mut left = steps.len();
    while left > 0 {
        left = left - 1;
        set = step_back(&steps[left], &set)?;
    }
    Ok(set)
}

/// The set of the first of the older children in time, or of the last leaf that was there before: from the current
/// graph, back over the recent events, and then over the steps. Made only where a node is due that is the first of
/// its height; else it is any set. An `Err` says that memory ran out.
pub(crate) fn base_set(
    alloc: Global,
    k: usize,
    m: usize,
    after: usize,
    now: &Set,
    recent: &[Event],
    older_steps: &[Delta],
) -> Result<Set, AllocError>
    requires { 2 ≤ k }
    ensures is { IfOk result (λ base. IsTopDue k m after → (set : List Element) → IsSet set → AreChangesOf set recent.now → now.now ≡ replay_from set recent.now → base ≡ gone_back older_steps.now set) }
    ensures back { IfOk result (λ base. IsTopDue k m after → base ≡ gone_back older_steps.now (taken_back now.now recent.now)) }
{
    if !has_top(k, m, after) {
        return Ok(Set::new(alloc));
    }
    let leaf = last_leaf(alloc, now, recent)?;
    back_over(older_steps, leaf)
}
