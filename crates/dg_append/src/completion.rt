//! What the changes of a batch come to.

ghost use Rattle.std.specs.Prelude.{◌≡◌, ◌≤◌, ◌<◌, ◌+◌, ◌^◌, ◌++◌, ◌∷◌, List, [], Option, None, Ok, length, vec_len, IfOk, IfErr, IfSome, IfNone, OnErr, OnOk};
ghost use Rattle.std.specs.Vec.{vec_capacity};
ghost use Rattle.dg_append.specs.AddedBatches.{IsRefused, TakesForm};
ghost use Rattle.dg_append.specs.Fronts.{IsFront, lines};
ghost use Rattle.dg_graph.specs.declared.event.Change.{Change};
ghost use Rattle.dg_graph.specs.declared.event.Event.{Event};
ghost use Rattle.dg_graph.specs.CompletedChanges.{completed};
ghost use Rattle.dg_history.specs.LegalHistory.{are_silent, is_message};
ghost use Rattle.dg_append.specs.OlderGroups.{leaves_after, leaves_before};
ghost use Rattle.dg_build.specs.OlderSteps.{IsTopDue};
ghost use Rattle.dg_index.specs.OpenedIndex.{earliest_in, event_total};
ghost use Rattle.dg_history.specs.declared.limits.TheConstants.{BATCH_LINES_MAX, EVENTS_MAX};
ghost use Rattle.dg_current.specs.Now.{FaultOf, earliest_time_after};

use crate::batch::Batch;
use crate::current_set::top_set;
use crate::fault::BatchFault;
use crate::front::Front;
use dg_current::{Now, PrepareFault};
use dg_file::Index;
use dg_graph::{Body, Change, Event, REASON_FORM};
use dg_set::Set;
use std::alloc::Global;

// Why the changes are refused, if they are, before a line that is no change. The graph has nothing
// pending, before and after.
fn refusal_of_front(now: &mut Now, last: Option<u64>, changes: &[Change]) -> Option<PrepareFault>
    requires none_pending { now.old.pending ≡ [] }
    requires few { length changes.now ≤ BATCH_LINES_MAX }
    requires last { IfSome last (λ t. t < 2 ^ 63) }
    ensures refused { IfSome result (FaultOf (completed 1 (earliest_time_after last) now.old.graph (lines changes.now))) }
    ensures done { IfNone result ((events : List Event) × (completed 1 (earliest_time_after last) now.old.graph (lines changes.now) ≡ Ok events)) }
    ensures same { now.new ≡ now.old }
{
    if changes.is_empty() {
        return None;
    }
    match now.prepare(last, changes) {
        Ok(()) => {
            now.abandon();
            None
        }
        Err(fault) => Some(fault),
    }
}

// Why a batch is refused of which the line after these changes is no change. The graph has nothing
// pending, before and after.
fn fault_of_form(now: &mut Now, last: Option<u64>, changes: &[Change]) -> PrepareFault
    requires none_pending { now.old.pending ≡ [] }
    requires few { length changes.now ≤ BATCH_LINES_MAX }
    requires last { IfSome last (λ t. t < 2 ^ 63) }
    ensures fault { (rest : List (Option Change))
        → FaultOf (completed 1 (earliest_time_after last) now.old.graph (lines changes.now ++ None ∷ rest)) result }
    ensures same { now.new ≡ now.old }
{
    // A line that is refused for its change is told first, since it comes first.
    if let Some(fault) = refusal_of_front(now, last, changes) {
        return fault;
    }
    PrepareFault::BadChange {
        line: changes.len() as u32 + 1,
        reason: REASON_FORM,
    }
}

// The last time of the batches in the file.
fn last_of(index: &Index) -> Option<u64>
    ensures last { earliest_time_after result ≡ earliest_in 0 index.now.opening.batches }
    ensures small { IfSome result (λ t. t < 2 ^ 63) }
{
    index.facts();
    index.last_time()
}

// Whether the event is a message.
fn is_message(event: &Event) -> bool
    ensures { result ≡ is_message event.now.body }
{
    matches!(event.body, Body::Message { .. })
}

// Whether none of the events is a message.
fn are_silent(events: &[Event]) -> bool
    ensures { result ≡ are_silent events.now }
{
    events.iter().all(|event| !is_message(event))
}

// Completes the lines whose changes were kept, as a batch after the last time. Their events are pending then, and the
// changes are dropped.
//
// `PrepareFault::BadChange` for the least line that is refused; `PrepareFault::Memory` for want of memory. Then nothing
// has changed.
fn prepare(
    now: &mut Now,
    last: Option<u64>,
    front: Front,
    changes: Vec<Change>,
) -> Result<(), PrepareFault>
    requires none_pending { now.old.pending ≡ [] }
    requires some { front ≡ Front.Whole → 1 ≤ length changes.items }
    requires few { length changes.items ≤ BATCH_LINES_MAX }
    requires last { IfSome last (λ t. t < 2 ^ 63) }
    ensures whole { OnOk result (front ≡ Front.Whole) }
    ensures done { OnOk result (completed 1 (earliest_time_after last) now.old.graph (lines changes.items) ≡ Ok now.new.pending) }
    ensures refused { IfErr result (λ fault. (all : List (Option Change)) → IsFront front changes.items all
        → FaultOf (completed 1 (earliest_time_after last) now.old.graph all) fault) }
    ensures same_graph { now.new.graph ≡ now.old.graph }
    ensures err { OnErr result (now.new ≡ now.old) }
{
    match front {
        Front::Whole => now.prepare(last, &changes),
        Front::Form => Err(fault_of_form(now, last, &changes)),
        Front::Unkept => Err(PrepareFault::Memory),
    }
}

/// Completes the batch behind the index. Its events are pending then, and the form of the file takes them; the changes are
/// dropped. It gives the graph before the batch as a set, where the batch completes an interior node that is the first of
/// its height, else any set: it is made before a line is completed, so that nothing has to be taken back from it. The recent
/// events get room for those of the batch.
///
/// `BatchFault::BadChange` for the least line that is refused; where none is, `BatchFault::OldFormat` where one is a message
/// and the file is in its first form, with the events pending; `BatchFault::Memory` for want of memory.
pub(crate) fn complete(
    alloc: Global,
    index: &Index,
    now: &mut Now,
    recent: &mut Vec<Event>,
    batch: Batch,
) -> Result<Set, BatchFault>
    requires none_pending { now.old.pending ≡ [] }
    requires some { batch.front ≡ Front.Whole → 1 ≤ length batch.changes.items }
    requires few { length batch.changes.items ≤ BATCH_LINES_MAX }
    requires room { event_total index.now.opening.batches + length batch.changes.items ≤ EVENTS_MAX }
    ensures top { IfOk result (λ set. IsTopDue index.now.opening.params.k (leaves_before index.now.opening) (leaves_after index.now.opening (length batch.changes.items)) → set ≡ now.old.graph) }
    ensures whole { OnOk result (batch.front ≡ Front.Whole) }
    ensures done { OnOk result (completed 1 (earliest_in 0 index.now.opening.batches) now.old.graph (lines batch.changes.items) ≡ Ok now.new.pending) }
    ensures form { OnOk result (TakesForm index.now.opening now.new.pending) }
    ensures refused { IfErr result (IsRefused index.now.opening now.old.graph batch) }
    ensures reserved { OnOk result (vec_len recent.new + length now.new.pending ≤ vec_capacity recent.new) }
    ensures same_graph { now.new.graph ≡ now.old.graph }
    ensures same_recent { recent.new.items ≡ recent.old.items }
{
    let top = top_set(alloc, index, now, batch.changes.len() as u64)?;
    prepare(now, last_of(index), batch.front, batch.changes)?;
    if !index.is_wide() && !are_silent(now.pending()) {
        return Err(BatchFault::OldFormat);
    }
    recent.reserve(now.pending().len())?;
    Ok(top)
}
