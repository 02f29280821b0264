//! The events of a record, held to be given batch by batch.
ghost use Rattle.std.specs.Prelude.{◌≡◌, ◌<◌, ◌≤◌, ◌-◌, ◌+◌, [], Ok, IfErr, IfOk, IfSome, IsErrOf, OnOk, drop, length, take, IsTrue, ◌↔◌};
ghost use Rattle.dg_disk.specs.Calls.{Fails, ReadsDisk};
ghost use Rattle.dg_history.specs.History.{History};
ghost use Rattle.dg_index.specs.OpenedIndex.{opening};
ghost use Rattle.dg_plan.specs.HistoryGraph.{all_columns};
ghost use Rattle.dg_records.specs.ColumnReads.{TakesOrFails, asked_length, kept_in};
ghost use Rattle.dg_spans.specs.Stretches.{AreEventsFrom, HasEvent, HasNumber, IsOutside, IsPlaced, WhereStands, record_of};
ghost use Rattle.dg_start.specs.EventSources.{WhereTold};
ghost use Rattle.dg_start.specs.Faults.{start_fault_of};
ghost use Rattle.dg_start.specs.RecentEvents.{events_in_source};
ghost use Rattle.dg_start.specs.Refusals.{IsReason};

use crate::place::{BatchPlace, record_at};
use dg_columns::{law_events_are_merged_back, law_events_are_read_back};
use dg_disk::Disk;
use dg_file::Index;
use dg_graph::Event;
use dg_names::Names;
use dg_records::RecordFault;
use dg_start::read_record;
use std::alloc::Global;

/// Events that stand one behind another: those of one record of an index, or none.
#[derive(Drop)]
pub struct Stretch {
    /// The number of the first event, from 0.
    pub start: u64,
    /// The events, in their order.
    pub events: Vec<Event>,
}

// So many of the events, from this one on, as far as there are.
fn cut(events: &[Event], start: u64, count: u64) -> &[Event]
    ensures { result.now ≡ take count (drop start events.now) }
{
    let rest = &events[events.len().min(start as usize)..];
    &rest[..rest.len().min(count as usize)]
}

impl Stretch {
    /// No event. Takes no memory.
    pub fn none(alloc: Global) -> Stretch
        ensures start { result.start ≡ 0 }
        ensures none { result.events.items ≡ [] }
    {
        Stretch {
            start: 0,
            events: Vec::new(alloc),
        }
    }

    /// Whether the event of this number is one of these.
    pub fn has(&self, at: u64) -> bool
        ensures { IsTrue result ↔ HasNumber self.now.start (length self.now.events.items) at }
    {
        self.start <= at && at - self.start < self.events.len() as u64
    }

    /// The events from this number on, as far as they are held, up to the one before `end`.
    pub fn part(&self, at: u64, end: u64) -> &[Event]
        requires held { HasNumber self.now.start (length self.now.events.items) at }
        requires some { at < end }
        ensures part { result.now ≡ take (end - at) (drop (at - self.now.start) self.now.events.items) }
        ensures some { 1 ≤ length result.now }
        ensures few { at + length result.now ≤ end }
        ensures own { (z : History) → AreEventsFrom z self.now.start self.now.events.items → AreEventsFrom z at result.now }
    {
        cut(&self.events, at - self.start, end - at)
    }

    /// Holds the record that has the event of this number, which is one of the batch. Reads it where it is not held yet.
    ///
    /// `RecordFault::Damaged` for the first column that no events are spelled as, or for structure where the columns do not
    /// come together to as many events as are due; `RecordFault::Disk` where the disk failed, `RecordFault::Memory` for want
    /// of memory. After a fault the events are as they were.
    pub fn reach<D: Disk>(
        &mut self,
        alloc: Global,
        index: &Index,
        disk: &mut D,
        names: &Names,
        place: BatchPlace,
        at: u64,
    ) -> Result<(), RecordFault>
        requires placed { IsPlaced index.now.opening place }
        requires within { HasEvent place at }
        requires image { IfSome (D.image disk.old) (λ image. opening image ≡ Ok (record { index = index.now.opening; names = names.now })) }
        requires own { WhereStands (D.image disk.old) (λ z. AreEventsFrom z self.old.start self.old.events.items) }

        // the events
        ensures here { OnOk result (HasNumber self.new.start (length self.new.events.items) at) }
        ensures own { WhereStands (D.image disk.old) (λ z. AreEventsFrom z self.new.start self.new.events.items) }

        // why they are not held
        ensures refused { IfErr result (λ fault. WhereTold (D.image disk.old)
            (λ image. IsReason (start_fault_of fault) (events_in_source image (length names.now) index.now.opening (record_of index.now.opening place at)))) }
        ensures never { IfErr result (λ fault. WhereStands (D.image disk.old) (λ z. IsOutside fault)) }
        ensures cause { IsErrOf result RecordFault.Disk → Fails D.Disk disk.old disk.new }

        // what it reads, and what it leaves
        ensures held { HasNumber self.old.start (length self.old.events.items) at → (result ≡ Ok tt) × (self.new ≡ self.old) × (disk.new ≡ disk.old) }
        ensures takes { WhereTold (D.image disk.old) (λ image. (HasNumber self.old.start (length self.old.events.items) at → ⊥)
            → TakesOrFails result (asked_length (kept_in image index.now.opening) all_columns (record_of index.now.opening place at).key) (D.taken disk.old) (D.taken disk.new)) }
        ensures disk { ReadsDisk D.Disk disk.old disk.new }
    {
        if self.has(at) {
            return Ok(());
        }
        *self = Stretch::read(alloc, index, disk, names, place, at)?;
        Ok(())
    }

    // The events of the record that has the event of this number, as `reach` says.
    fn read<D: Disk>(
        alloc: Global,
        index: &Index,
        disk: &mut D,
        names: &Names,
        place: BatchPlace,
        at: u64,
    ) -> Result<Stretch, RecordFault>
        requires placed { IsPlaced index.now.opening place }
        requires within { HasEvent place at }
        requires image { IfSome (D.image disk.old) (λ image. opening image ≡ Ok (record { index = index.now.opening; names = names.now })) }

        // the events
        ensures here { IfOk result (λ stretch. HasNumber stretch.start (length stretch.events.items) at) }
        ensures own { IfOk result (λ stretch. WhereStands (D.image disk.old) (λ z. AreEventsFrom z stretch.start stretch.events.items)) }

        // why there are none
        ensures refused { IfErr result (λ fault. WhereTold (D.image disk.old)
            (λ image. IsReason (start_fault_of fault) (events_in_source image (length names.now) index.now.opening (record_of index.now.opening place at)))) }
        ensures never { IfErr result (λ fault. WhereStands (D.image disk.old) (λ z. IsOutside fault)) }
        ensures cause { IsErrOf result RecordFault.Disk → Fails D.Disk disk.old disk.new }

        // what it reads, and what it leaves
        ensures takes { WhereTold (D.image disk.old)
            (λ image. TakesOrFails result (asked_length (kept_in image index.now.opening) all_columns (record_of index.now.opening place at).key) (D.taken disk.old) (D.taken disk.new)) }
        ensures disk { ReadsDisk D.Disk disk.old disk.new }
    {
        law_events_are_read_back();
        law_events_are_merged_back();
        let found = record_at(index, place, at);
        let events = read_record(alloc, index, disk, names.len(), found.source)?;
        Ok(Stretch {
            start: found.start,
            events,
        })
    }
}
