//! The segment of a batch.

ghost use Rattle.std.specs.Prelude.{◌≡◌, ◌≤◌, ◌<◌, ◌+◌, ◌-◌, ◌*◌, ◌^◌, ◌++◌, [], ℕ, List, length, map, take, drop, true, false, All, IfOk, IfErr, OnOk};
ghost use Rattle.dg_graph.specs.declared.event.Event.{Event};
ghost use Rattle.dg_graph.specs.ExactEvents.{AreChangesOf};
ghost use Rattle.dg_graph.specs.Replay.{replay};
ghost use Rattle.dg_history.specs.EventTimes.{RisesFrom};
ghost use Rattle.dg_history.specs.History.{first_time_of, last_time_from};
ghost use Rattle.dg_columns.specs.NamesInRange.{NamesFit};
ghost use Rattle.dg_index.specs.Hierarchy.{leaves, numbers};
ghost use Rattle.dg_index.specs.IndexRecords.{Events, deltas_due, recent_of, record_among};
ghost use Rattle.dg_index.specs.FileOfHistory.{segment_of, stored, stored_in};
ghost use Rattle.dg_index.specs.OpenedIndex.{AreUnheard, list_row, may_be_listed};
ghost use Rattle.dg_build.specs.OlderSteps.{AreOlderSteps, IsTopDue, older_in_time};
ghost use Rattle.dg_build.specs.SpelledRecords.{IsFaultBelow, last_in_rows, stored_cut, written_columns, written_segment};
ghost use Rattle.dg_build.specs.GivenDeltas.{AddsSuch, AreGiven, IsFaultOfSuch};
ghost use Rattle.dg_build.specs.declared.fault.BuildFault.TheVariants.{Memory};

use crate::fault::BuildFault;
use crate::first_list::{first_count, first_events, first_list};
use crate::leaves::add_interior;
use crate::records::{add_lists, set_piece};
use dg_delta::Delta;
use dg_event::Event;
use dg_history::Params;
use dg_segment::Segment;
use dg_set::Set;
use std::alloc::Global;

// The events behind the first `count`.
fn behind(events: &[Event], count: usize) -> &[Event]
    requires { count ≤ length events.now }
    ensures { result.now ≡ drop count events.now }
{
    &events[count..]
}

// Gives the segment, which is without a list or a delta, those of the batch, and its piece.
fn add_batch(
    alloc: Global,
    params: Params,
    messages: bool,
    before: usize,
    recent: &[Event],
    events: &[Event],
    now: &Set,
    older_steps: &[Delta],
    segment: &mut Segment,
) -> Result<(), BuildFault>
    requires list { (1 ≤ params.l) × (params.l ≤ 65536) }
    requires arity { 2 ≤ params.k }
    requires recent { length recent.now ≡ before - leaves params before * params.l }
    requires fits { before + length events.now < 2 ^ 32 }
    requires recent_names { All (λ e. NamesFit e.body) recent.now }
    requires event_names { All (λ e. NamesFit e.body) events.now }
    requires older { length older_steps.now ≡ length (older_in_time params.k (leaves params before) (leaves params (before + length events.now))) }
    requires bare { (segment.old.lists ≡ []) × (segment.old.deltas ≡ []) }
    ensures written { OnOk result (segment.new ≡ record segment.old {
      lists = map (λ i. stored_cut messages (take params.l (drop (i * params.l) (recent.now ++ events.now)))) (numbers 0 (leaves params (before + length events.now) - leaves params before));
      deltas = segment.new.deltas;
      piece = written_columns messages (stored (Events (drop (leaves params (before + length events.now) * params.l - before) events.now)));
    }) }
    ensures count { OnOk result (length segment.new.deltas ≡ length (deltas_due params.k (leaves params before) (leaves params (before + length events.now)))) }
    ensures is { OnOk result ((past : List Event) → length past ≡ before → recent.now ≡ recent_of params past
        → (IsTopDue params.k (leaves params before) (leaves params (before + length events.now)) → now.now ≡ replay past)
        → AreChangesOf [] (past ++ events.now) → AreOlderSteps params past (leaves params (before + length events.now)) older_steps.now
        → segment.new.deltas ≡ map (λ key. stored (record_among params (past ++ events.now) [] key)) (deltas_due params.k (leaves params before) (leaves params (before + length events.now)))) }
    ensures fault { IfErr result (λ e. (past : List Event) → length past ≡ before → recent.now ≡ recent_of params past
        → (IsTopDue params.k (leaves params before) (leaves params (before + length events.now)) → now.now ≡ replay past)
        → AreChangesOf [] (past ++ events.now) → AreOlderSteps params past (leaves params (before + length events.now)) older_steps.now
        → e ≡ Memory) }
    ensures wide { IfErr result (λ e. IsFaultBelow (length (deltas_due params.k (leaves params before) (leaves params (before + length events.now)))) e) }
    ensures given { OnOk result (AddsSuch (AreGiven params before now.now recent.now events.now older_steps.now) [] segment.new.deltas) }
    ensures first { IfErr result (λ e. IsFaultOfSuch (AreGiven params before now.now recent.now events.now older_steps.now) 0 e) }
{
    let l = params.l as usize;
    let m = before / l;
    let after = (before + events.len()) / l;
    // Only the first list reaches over the border between the recent events and the batch.
    let cut = first_count(l, recent, events);
    let later = behind(events, cut);
    let list = first_list(alloc, recent, events, cut)?;
    let first = first_events(&list, recent, cut);
    add_lists(alloc, messages, l, after - m, first, later, segment)?;
    add_interior(
        alloc,
        params,
        m,
        after,
        now,
        recent,
        first,
        later,
        older_steps,
        segment,
    )?;
    let piece = behind(events, (after * l).saturating_sub(before));
    set_piece(alloc, messages, piece, segment)?;
    Ok(())
}

/// The segment of a batch of `events` behind `before` others: the columns of the lists that the batch
/// closes, of the deltas of the interior nodes that it completes, and of its piece.
///
/// `recent` has the events behind the last closed list. `now` is the current graph, of which sets are made where
/// an interior node is due that is the first of its height (`is_top_due`); else any set will do. `older_steps`
/// has the steps of the older children of the due nodes, in the order of time, which has those of the greatest
/// height first: the exact delta from each to the next, and from the last to the last leaf that was there before
/// (to the empty graph where there was none). `segment` comes with the number of the batch's events, its first
/// and its last time, and its new names, and without a list or a delta. The columns of its lists and of its piece are
/// written with those of `messages`, or without, as in the first form, which has none.
///
/// `Memory` says that memory ran out, or that the segment would have 2^32 lists or deltas, or 2^63 bytes,
/// or more. `Wide` names the first due delta that cannot be written, which no history brings about.
pub fn build(
    alloc: Global,
    params: Params,
    messages: bool,
    before: usize,
    recent: &[Event],
    events: &[Event],
    now: &Set,
    older_steps: &[Delta],
    segment: Segment,
) -> Result<Segment, BuildFault>
    requires list { (1 ≤ params.l) × (params.l ≤ 65536) }
    requires arity { 2 ≤ params.k }
    requires recent { length recent.now ≡ before - leaves params before * params.l }
    requires fits { before + length events.now < 2 ^ 32 }
    requires recent_names { All (λ e. NamesFit e.body) recent.now }
    requires event_names { All (λ e. NamesFit e.body) events.now }
    requires older { length older_steps.now ≡ length (older_in_time params.k (leaves params before) (leaves params (before + length events.now))) }
    requires bare { (segment.lists ≡ []) × (segment.deltas ≡ []) }
    ensures batch { IfOk result (λ s. (s.events ≡ segment.events) × (s.first ≡ segment.first) × (s.last ≡ segment.last) × (s.names ≡ segment.names)) }
    ensures lists { IfOk result (λ s. length s.lists ≡ leaves params (before + length events.now) - leaves params before) }
    ensures deltas { IfOk result (λ s. length s.deltas ≡ length (deltas_due params.k (leaves params before) (leaves params (before + length events.now)))) }
    ensures times { IfOk result (λ s. (floor : ℕ) → RisesFrom floor (recent.now ++ events.now)
        → may_be_listed floor (last_time_from floor (recent.now ++ events.now)) (map list_row s.lists) ≡ true) }
    ensures behind { IfOk result (λ s. (floor : ℕ) → RisesFrom floor (recent.now ++ events.now)
        → RisesFrom (last_in_rows floor (map list_row s.lists)) (drop ((leaves params (before + length events.now) - leaves params before) * params.l) (recent.now ++ events.now))) }
    ensures is { IfOk result (λ s. (past : List Event) → length past ≡ before → recent.now ≡ recent_of params past
        → (IsTopDue params.k (leaves params before) (leaves params (before + length events.now)) → now.now ≡ replay past)
        → AreChangesOf [] (past ++ events.now) → AreOlderSteps params past (leaves params (before + length events.now)) older_steps.now
        → segment.events ≡ length events.now → segment.first ≡ first_time_of events.now → segment.last ≡ last_time_from 0 events.now
        → s ≡ written_segment messages (segment_of params past (record { names = segment.names; events = events.now }))) }
    ensures unheard { IfOk result (λ s. messages ≡ false → AreUnheard (stored_in s)) }
    ensures fault { IfErr result (λ e. (past : List Event) → length past ≡ before → recent.now ≡ recent_of params past
        → (IsTopDue params.k (leaves params before) (leaves params (before + length events.now)) → now.now ≡ replay past)
        → AreChangesOf [] (past ++ events.now) → AreOlderSteps params past (leaves params (before + length events.now)) older_steps.now
        → e ≡ Memory) }
    ensures wide { IfErr result (λ e. IsFaultBelow (length (deltas_due params.k (leaves params before) (leaves params (before + length events.now)))) e) }
    ensures given { IfOk result (λ s. AddsSuch (AreGiven params before now.now recent.now events.now older_steps.now) [] s.deltas) }
    ensures first { IfErr result (λ e. IsFaultOfSuch (AreGiven params before now.now recent.now events.now older_steps.now) 0 e) }
{
    let mut segment = segment;
    add_batch(
        alloc,
        params,
        messages,
        before,
        recent,
        events,
        now,
        older_steps,
        &mut segment,
    )?;
    segment.facts();
    Ok(segment)
}
