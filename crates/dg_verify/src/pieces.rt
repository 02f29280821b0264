//! Reading the recent pieces of an index, and comparing the older ones.

ghost use Rattle.std.specs.Prelude.{◌≡◌, ◌+◌, ◌≤◌, [], IfErr, IfSome, IsErrOf, Ok, OnOk, Some, drop, length, slice_get, take};
ghost use Rattle.std.specs.List.{All};
ghost use Rattle.dg_columns.specs.NamesInRange.{NamesFit};
ghost use Rattle.dg_disk.specs.Calls.{Fails, ReadsDisk};
ghost use Rattle.dg_file.specs.Images.{IsOpenedAs};
ghost use Rattle.dg_graph.specs.declared.event.Event.{Event};
ghost use Rattle.dg_records.specs.ColumnReads.{TakesAtMost};
ghost use Rattle.dg_history.specs.declared.node.Key.TheVariants as key;
ghost use Rattle.dg_index.specs.OpenedIndex.{entry_at, event_total, opening, total};
ghost use Rattle.dg_sound.specs.OwnEvents.{has_batch_ends, is_recent, piece_length, piece_start, with_older, with_piece_events, with_pieces, with_recent};
ghost use Rattle.dg_start.specs.EventSources.{WhereTold};
ghost use Rattle.dg_verify.specs.EventTests.{IsRead, IsStopBehind, tested};
ghost use Rattle.dg_verify.specs.RecordBytes.{columns_bytes, piece_keys};
ghost use Rattle.dg_verify.specs.Verification.{AreSoFar, IsStop, opened_with};

use crate::own_events::OwnEvents;
use crate::records::{compare_event_columns, read_events};
use crate::stop::Stop;
use crate::times::are_ends;
use dg_catalogue::leaves;
use dg_columns::write_events;
use dg_disk::Disk;
use dg_file::Index;
use dg_graph::{Column, Event};
use dg_history::Key;
use dg_index::{BatchEntry, PerColumn};
use dg_names::Names;
use std::alloc::Global;

// So many of the events, from this one on, as far as there are.
fn cut(events: &[Event], start: u64, count: u64) -> &[Event]
    ensures { result.now ≡ take count (drop start events.now) }
{
    let rest = &events[events.len().min(start as usize)..];
    &rest[..rest.len().min(count as usize)]
}

// Whether the times of a batch behind so many events are those of its events among these.
fn has_batch_ends(before: u64, batch: BatchEntry, events: &[Event]) -> bool
    ensures { result ≡ has_batch_ends before batch events.now }
{
    are_ends(batch.ends, cut(events, before, batch.events))
}

// The events of a batch that its piece has: the index of the first of them, and their number.
#[derive(Clone, Copy)]
struct Span {
    start: u64,
    count: u64,
}

// Where the events of the piece of a batch stand, behind so many events.
fn span_of(index: &Index, before: u64, batch: BatchEntry) -> Span
    requires few { before + batch.events ≤ event_total index.now.opening.batches }
    ensures start { result.start ≡ piece_start index.now.opening before batch }
    ensures count { result.count ≡ piece_length index.now.opening before batch }
    ensures small { result.count ≤ 65536 }
{
    index.facts();
    let size = u64::from(index.params().l);
    let closed = u64::from(leaves(index.params(), before + batch.events)) * size;
    Span {
        start: before.max(closed),
        count: batch.events - closed.saturating_sub(before),
    }
}

// Whether no batch behind this one, which stands behind so many events, closes a list.
fn is_recent(index: &Index, before: u64, batch: BatchEntry) -> bool
    requires few { before + batch.events ≤ event_total index.now.opening.batches }
    ensures { result ≡ is_recent index.now.opening before batch }
{
    index.facts();
    let closed = leaves(index.params(), before + batch.events);
    closed == leaves(index.params(), index.events_len())
}

// Compares the piece of an older batch with the batch's events among those that were read.
fn compare_older<D: Disk>(
    alloc: Global,
    index: &Index,
    disk: &mut D,
    events: &[Event],
    number: u32,
    before: u64,
    batch: BatchEntry,
) -> Result<(), Stop>
    requires few { before + batch.events ≤ event_total index.now.opening.batches }
    requires image { IfSome (D.image disk.old) (λ image. IsOpenedAs image index.now.opening) }
    requires fit { All (λ (e : Event). NamesFit e.body) events.now }
    ensures alike { OnOk result (WhereTold (D.image disk.old)
        (λ image. with_older image (opened_with index.now.opening []) events.now number before batch ≡ Ok events.now)) }
    ensures stopped { IfErr result (λ stop. WhereTold (D.image disk.old)
        (λ image. IsStop stop (with_older image (opened_with index.now.opening []) events.now number before batch))) }
    ensures cause { IsErrOf result Stop.Disk → Fails D.Disk disk.old disk.new }

    // what it reads, and what it leaves
    ensures takes { WhereTold (D.image disk.old) (λ image. TakesAtMost (total (entry_at index.now.opening (key.Piece number)).lengths) (D.taken disk.old) (D.taken disk.new)) }
    ensures disk { ReadsDisk D.Disk disk.old disk.new }
{
    let key = Key::Piece(number);
    if !has_batch_ends(before, batch, events) {
        return Err(Stop::Wrong(key, Column::Structure));
    }
    let Span { start, count } = span_of(index, before, batch);
    let piece = cut(events, start, count);
    let structure = write_events(alloc, piece, Column::Structure)?;
    let node_attrs = write_events(alloc, piece, Column::NodeAttr)?;
    let edge_attrs = write_events(alloc, piece, Column::EdgeAttr)?;
    let transient = write_events(alloc, piece, Column::Transient)?;
    let due = PerColumn {
        structure: structure.as_slice(),
        node_attrs: node_attrs.as_slice(),
        edge_attrs: edge_attrs.as_slice(),
        transient: transient.as_slice(),
    };
    compare_event_columns(index, disk, key, due)
}

// Reads the piece of a recent batch behind the events that were read.
fn add_recent<D: Disk>(
    alloc: Global,
    index: &Index,
    disk: &mut D,
    names: &Names,
    own: &mut OwnEvents,
    number: u32,
    before: u64,
    batch: BatchEntry,
) -> Result<(), Stop>
    requires there { slice_get index.now.opening.batches number ≡ Some batch }
    requires few { before + batch.events ≤ event_total index.now.opening.batches }
    requires image { IfSome (D.image disk.old) (λ image. opening image ≡ Ok (opened_with index.now.opening names.now)) }
    requires read { IsRead (length names.now) own.old }
    ensures pieced { OnOk result (WhereTold (D.image disk.old)
        (λ image. tested names.now own.old (with_recent image (opened_with index.now.opening names.now) own.old.events.items number before batch) ≡ tested names.now own.new (Ok own.new.events.items))) }
    ensures read { OnOk result (IsRead (length names.now) own.new) }
    ensures many { OnOk result (length own.new.events.items ≡ length own.old.events.items + piece_length index.now.opening before batch) }
    ensures stopped { IfErr result (λ stop. WhereTold (D.image disk.old)
        (λ image. IsStopBehind names.now own.new stop (tested names.now own.old (with_recent image (opened_with index.now.opening names.now) own.old.events.items number before batch)))) }
    ensures cause { IsErrOf result Stop.Disk → Fails D.Disk disk.old disk.new }

    // what it reads, and what it leaves
    ensures takes { WhereTold (D.image disk.old) (λ image. TakesAtMost (total (entry_at index.now.opening (key.Piece number)).lengths) (D.taken disk.old) (D.taken disk.new)) }
    ensures disk { ReadsDisk D.Disk disk.old disk.new }
{
    index.facts();
    let key = Key::Piece(number);
    let Span { count, .. } = span_of(index, before, batch);
    let events = read_events(alloc, index, disk, names, key, count)?;
    own.add(key, &events)?;
    if !has_batch_ends(before, batch, &own.events) {
        return Err(Stop::Wrong(key, Column::Structure));
    }
    Ok(())
}

// Reads the piece of the batch, or compares it, as the batch is recent or older.
fn add_piece<D: Disk>(
    alloc: Global,
    index: &Index,
    disk: &mut D,
    names: &Names,
    own: &mut OwnEvents,
    number: u32,
    before: u64,
    batch: BatchEntry,
) -> Result<(), Stop>
    requires there { slice_get index.now.opening.batches number ≡ Some batch }
    requires few { before + batch.events ≤ event_total index.now.opening.batches }
    requires image { IfSome (D.image disk.old) (λ image. opening image ≡ Ok (opened_with index.now.opening names.now)) }
    requires read { IsRead (length names.now) own.old }
    requires so_far { AreSoFar index.now.opening before own.old.events.items }
    ensures pieced { OnOk result (WhereTold (D.image disk.old)
        (λ image. tested names.now own.old (with_piece_events image (opened_with index.now.opening names.now) own.old.events.items number before batch) ≡ tested names.now own.new (Ok own.new.events.items))) }
    ensures read { OnOk result (IsRead (length names.now) own.new) }
    ensures so_far { OnOk result (AreSoFar index.now.opening (before + batch.events) own.new.events.items) }
    ensures stopped { IfErr result (λ stop. WhereTold (D.image disk.old)
        (λ image. IsStopBehind names.now own.new stop (tested names.now own.old (with_piece_events image (opened_with index.now.opening names.now) own.old.events.items number before batch)))) }
    ensures cause { IsErrOf result Stop.Disk → Fails D.Disk disk.old disk.new }

    // what it reads, and what it leaves
    ensures takes { WhereTold (D.image disk.old) (λ image. TakesAtMost (total (entry_at index.now.opening (key.Piece number)).lengths) (D.taken disk.old) (D.taken disk.new)) }
    ensures disk { ReadsDisk D.Disk disk.old disk.new }
{
    index.facts();
    if is_recent(index, before, batch) {
        add_recent(alloc, index, disk, names, own, number, before, batch)
    } else {
        compare_older(alloc, index, disk, &own.events, number, before, batch)
    }
}

/// Reads the events of all recent pieces behind those of all lists, and compares each older piece with the events of
/// its batch. Whether the events may follow one another is not tested.
///
/// `Stop::Wrong` for the first piece that is not right by itself: an older one for its first column that is another, or
/// for structure where the batch's times are others, and a recent one as a list; the events before it are read.
/// `Stop::Disk` where the disk failed, `Stop::Memory` for want of memory.
pub fn add_pieces<D: Disk>(
    alloc: Global,
    index: &Index,
    disk: &mut D,
    names: &Names,
    own: &mut OwnEvents,
) -> Result<(), Stop>
    requires image { IfSome (D.image disk.old) (λ image. opening image ≡ Ok (opened_with index.now.opening names.now)) }
    requires read { IsRead (length names.now) own.old }
    requires so_far { AreSoFar index.now.opening 0 own.old.events.items }

    // the events
    ensures pieced { OnOk result (WhereTold (D.image disk.old)
        (λ image. tested names.now own.old (with_pieces image (opened_with index.now.opening names.now) own.old.events.items 0 0 index.now.opening.batches) ≡ tested names.now own.new (Ok own.new.events.items))) }
    ensures read { OnOk result (IsRead (length names.now) own.new) }
    ensures many { OnOk result (length own.new.events.items ≡ event_total index.now.opening.batches) }

    // why there are none
    ensures stopped { IfErr result (λ stop. WhereTold (D.image disk.old)
        (λ image. IsStopBehind names.now own.new stop (tested names.now own.old (with_pieces image (opened_with index.now.opening names.now) own.old.events.items 0 0 index.now.opening.batches)))) }
    ensures cause { IsErrOf result Stop.Disk → Fails D.Disk disk.old disk.new }

    // what it reads, and what it leaves
    ensures takes { WhereTold (D.image disk.old) (λ image. TakesAtMost (columns_bytes index.now.opening (piece_keys index.now.opening)) (D.taken disk.old) (D.taken disk.new)) }
    ensures disk { ReadsDisk D.Disk disk.old disk.new }
{
    index.facts();
    let mut before = 0;
    let mut number = 0;
    while let Some(batch) = index.batch(number) {
        add_piece(alloc, index, disk, names, own, number, before, batch)?;
        before += batch.events;
        number += 1;
    }
    Ok(())
}
