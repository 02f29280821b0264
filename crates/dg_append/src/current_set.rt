//! The current graph before a batch, as a set: before its lines are completed, or while its events are pending.

ghost use Rattle.std.specs.Prelude.{◌≡◌, ◌≤◌, ◌<◌, ◌+◌, [], IfOk};
ghost use Rattle.dg_append.specs.OlderGroups.{leaves_after, leaves_before};
ghost use Rattle.dg_build.specs.OlderSteps.{IsTopDue};
ghost use Rattle.dg_history.specs.declared.limits.TheConstants.{EVENTS_MAX};
ghost use Rattle.dg_index.specs.OpenedIndex.{event_total};

use dg_build::is_top_due;
use dg_catalogue::leaves;
use dg_current::Now;
use dg_file::Index;
use dg_net::net_back;
use dg_set::Set;
use std::alloc::{AllocError, Global};

/// The current graph before a batch of so many lines, none of which is completed yet, as a set of its own, where these
/// complete an interior node that is the first of its height; else any set. An `Err` says that memory ran out.
pub(crate) fn top_set(
    alloc: Global,
    index: &Index,
    now: &Now,
    count: u64,
) -> Result<Set, AllocError>
    requires none_pending { now.now.pending ≡ [] }
    requires room { event_total index.now.opening.batches + count ≤ EVENTS_MAX }
    ensures { IfOk result (λ set. IsTopDue index.now.opening.params.k (leaves_before index.now.opening) (leaves_after index.now.opening count) → set ≡ now.now.graph) }
{
    index.facts();
    let params = index.params();
    let before = index.events_len();
    if is_top_due(
        params.k,
        leaves(params, before),
        leaves(params, before + count),
    ) {
        now.set_past(alloc)
    } else {
        Ok(Set::new(alloc))
    }
}

/// The current graph, without the pending events, as a set of its own. An `Err` says that memory ran out.
pub(crate) fn set_before(alloc: Global, current: &Now) -> Result<Set, AllocError>
    ensures { IfOk result (λ set. set ≡ current.now.graph) }
{
    // Its clauses say that the graph is a set, and that the pending events are changes of it.
    current.facts();
    let past = current.set_past(alloc)?;
    let back = net_back(alloc, current.pending())?;
    back.apply(&past)
}
