//! The segment of a batch: it is made, and put into the index file.

ghost use Rattle.std.specs.Prelude.{◌≡◌, ◌≤◌, ◌<◌, ◌+◌, ◌/◌, ◌++◌, List, [], Some, length, drop, slice_get, IfOk, IfErr, IfSome, OnOk};
ghost use Rattle.dg_append.specs.AddedBatches.{batch_with};
ghost use Rattle.dg_append.specs.BatchSegments.{IsNext, IsPast, IsSegmentBehind, IsUnmade};
ghost use Rattle.dg_append.specs.KeptBatches.{StopsKeeping};
ghost use Rattle.dg_append.specs.OlderGroups.{leaves_after, leaves_before};
ghost use Rattle.dg_build.specs.OlderSteps.{older_in_time};
ghost use Rattle.dg_disk.specs.Calls.{LeftByCrash, WritesDisk};
ghost use Rattle.dg_file.specs.Calls.{CommitsSegment};
ghost use Rattle.dg_file.specs.Images.{Fits, GainsBatchOrNot};
ghost use Rattle.dg_graph.specs.declared.event.Event.{Event};
ghost use Rattle.dg_history.specs.declared.limits.TheConstants.{EVENTS_MAX, FILE_BYTES_MAX};
ghost use Rattle.dg_history.specs.History.{first_time_of, last_time_from};
ghost use Rattle.dg_index.specs.FileOfHistory.{segment_of};
ghost use Rattle.dg_index.specs.IndexGrowth.{IsDue};
ghost use Rattle.dg_index.specs.IndexRecords.{deltas_due};
ghost use Rattle.dg_index.specs.OpenedIndex.{event_total};

use crate::fault::BatchFault;
use crate::next_batch::NextBatch;
use dg_build::{BuildFault, build};
use dg_catalogue::{keys_due, leaves};
use dg_delta::Delta;
use dg_disk::Disk;
use dg_file::{CommitFault, Index};
use dg_graph::{Column, Event};
use dg_history::Key;
use dg_names::Names;
use dg_segment::Segment;
use std::alloc::{AllocError, Global};

/// The instant of the first event, or 0 where there is none.
pub(crate) fn first_instant(events: &[Event]) -> u64
    ensures { result ≡ first_time_of events.now }
{
    match events.first() {
        Some(first) => first.time,
        None => 0,
    }
}

/// The instant of the last event, or 0 where there is none.
pub(crate) fn last_instant(events: &[Event]) -> u64
    ensures { result ≡ last_time_from 0 events.now }
{
    match events.last() {
        Some(last) => last.time,
        None => 0,
    }
}

// Gives the segment the names from this number on.
fn add_names(segment: &mut Segment, names: &Names, known: u32) -> Result<(), AllocError>
    ensures { OnOk result (segment.new ≡ record segment.old { names = segment.old.names ++ drop known names.now }) }
{
    let mut number = known;
    names.facts();
    while let Some(text) = names.text(number) {
        segment.add_name(text)?;
        number += 1;
    }
    Ok(())
}

// The key of the delta at this index, from 0, among those that a batch of so many events gives.
fn delta_key(
    alloc: Global,
    index: &Index,
    count: u64,
    delta_index: usize,
) -> Result<Key, AllocError>
    requires few { event_total index.now.opening.batches + count ≤ EVENTS_MAX }
    requires delta_index { delta_index < length (deltas_due index.now.opening.params.k (leaves_before index.now.opening) (leaves_after index.now.opening count)) }
    ensures { IfOk result (λ key. slice_get (deltas_due index.now.opening.params.k (leaves_before index.now.opening) (leaves_after index.now.opening count)) delta_index ≡ Some key) }
{
    index.facts();
    let params = index.params();
    let events = index.events_len();
    let lists = leaves(params, events + count) - leaves(params, events);
    let keys = keys_due(alloc, params, events, count, 0)?;
    Ok(keys[lists as usize + delta_index])
}

// A segment of so many events, with its names, and without a list or a delta.
fn begun(alloc: Global, names: &Names, known: u32, events: &[Event]) -> Result<Segment, AllocError>
    ensures parts { IfOk result (λ s. (s.events ≡ length events.now) × (s.first ≡ first_time_of events.now) × (s.last ≡ last_time_from 0 events.now) × (s.names ≡ drop known names.now)) }
    ensures bare { IfOk result (λ s. (s.lists ≡ []) × (s.deltas ≡ [])) }
{
    let count = events.len() as u64;
    let mut segment = Segment::new(alloc, count, first_instant(events), last_instant(events));
    add_names(&mut segment, names, known)?;
    Ok(segment)
}

/// The segment of the batch behind the index; `older` has the exact steps of the older children of the interior nodes that
/// the batch completes, in the order of time.
///
/// `Damaged` names the first due delta that has more elements than its column can count, and its structure; `Memory` says
/// that memory ran out.
pub(crate) fn segment_of(
    alloc: Global,
    index: &Index,
    next: &NextBatch,
    older: &[Delta],
) -> Result<Segment, BatchFault>
    requires next { IsNext index.now.opening next.now next.now.current.now.graph }
    requires older { length older.now
        ≡ length (older_in_time index.now.opening.params.k (leaves_before index.now.opening) (leaves_after index.now.opening (length next.now.events.now))) }
    ensures behind { IfOk result (λ s. IsSegmentBehind index.now.opening (drop next.now.known next.now.names.now) next.now.recent.now next.now.events.now s) }
    ensures is { IfOk result (λ s. (past : List Event) → IsPast index.now.opening past next.now.recent.now next.now.current.now.graph next.now.events.now older.now
        → s ≡ segment_of index.now.opening.params past (batch_with next.now.known next.now.names.now next.now.events.now)) }
    ensures fails { IfErr result (IsUnmade index.now.opening next.now next.now.current.now.graph older.now) }
    ensures never { IfErr result (λ fault. (past : List Event) → IsPast index.now.opening past next.now.recent.now next.now.current.now.graph next.now.events.now older.now
        → fault ≡ BatchFault.Memory) }
{
    index.facts();
    let params = index.params();
    let before = index.events_len();
    let count = next.events.len() as u64;
    let segment = begun(alloc, next.names, next.known, next.events)?;
    match build(
        alloc,
        params,
        index.is_wide(),
        before as usize,
        next.recent,
        next.events,
        next.top,
        older,
        segment,
    ) {
        Ok(segment) => {
            segment.facts();
            Ok(segment)
        }
        Err(BuildFault::Memory) => Err(BatchFault::Memory),
        Err(BuildFault::Wide(delta_index)) => {
            let key = delta_key(alloc, index, count, delta_index)?;
            Err(BatchFault::Damaged(key, Column::Structure))
        }
    }
}

/// Puts the segment of the next batch into the file, which may have `limit` bytes in use. All memory
/// is taken before the first write.
///
/// `BatchFault::FileFull` with the bytes that would be in use and `limit`, where they are more than it;
/// `BatchFault::Memory` for want of memory; then nothing has changed. `BatchFault::Store` where the disk
/// failed.
pub(crate) fn keep_segment<D: Disk>(
    index: &mut Index,
    disk: &mut D,
    segment: Segment,
    limit: u64,
) -> Result<(), BatchFault>
    requires due { IsDue index.old.opening segment }
    requires limit { limit ≤ FILE_BYTES_MAX }
    requires image { IfSome (D.image disk.old) (λ image. Fits image index.old.opening segment) }
    ensures kept { OnOk result (CommitsSegment D.Disk limit index.old.opening segment index.new.opening disk.old disk.new) }

    // why it is not kept
    ensures fails { IfErr result (StopsKeeping D.Disk limit index.old.opening segment index.new.opening disk.old disk.new) }

    // what it leaves, and what a crash leaves
    ensures disk { WritesDisk D.Disk disk.old disk.new }
    ensures crash { LeftByCrash D.Disk disk.old disk.new (GainsBatchOrNot segment) }
{
    let prepared = index.prepare(segment)?;
    match index.commit(disk, prepared, limit) {
        Ok(()) => Ok(()),
        Err(CommitFault::FileFull(needed)) => Err(BatchFault::FileFull(needed, limit)),
        Err(CommitFault::Disk) => Err(BatchFault::Store),
    }
}
