//! The lines of the changes of a span, record by record.
ghost use Rattle.std.specs.Prelude.{◌≡◌, ◌++◌, IfErr, IfSome, Ok, OnOk};
ghost use Rattle.dg_disk.specs.Calls.{ReadsDisk};
ghost use Rattle.dg_dumping.specs.Dumped.{GainsSpan, Stops};
ghost use Rattle.dg_dumping.specs.PutText.{Puts, events_text};
ghost use Rattle.dg_dumping.specs.SpanText.{events_within, span_text};
ghost use Rattle.dg_history.specs.History.{events_of};
ghost use Rattle.dg_index.specs.OpenedIndex.{opening};
ghost use Rattle.dg_io.specs.Calls.{PutsOn};
ghost use Rattle.dg_io.specs.Told.{grown};
ghost use Rattle.dg_spans.specs.Stretches.{WhereStands};

use crate::range::events_to_read;
use crate::span::Span;
use crate::status::DumpStatus;
use crate::text::write_events_within;
use dg_disk::Disk;
use dg_file::Index;
use dg_io::{Sink, write_whole};
use dg_names::Names;
use dg_spans::{BatchPlace, Stretch};
use std::alloc::Global;

// Writes the lines of the events that are in the span.
fn write_changes<D: Disk, K: Sink>(
    alloc: Global,
    index: &Index,
    disk: &mut D,
    names: &Names,
    sink: &mut K,
    text: &mut Vec<u8>,
    span: Span,
) -> Result<(), DumpStatus>
    requires image { IfSome (D.image disk.old) (λ image. opening image ≡ Ok (record { index = index.now.opening; names = names.now })) }
    ensures put { OnOk result (WhereStands (D.image disk.old)
        (λ z. Puts K.Sink sink.old (text.old.items ++ events_text names.now (events_within span (events_of z))) sink.new text.new.items)) }

    // why not all is written
    ensures part { IfErr result (λ status. WhereStands (D.image disk.old)
        (λ z. GainsSpan status (K.written sink.old) (text.old.items ++ events_text names.now (events_within span (events_of z))) (K.written sink.new))) }
    ensures stopped { IfErr result (λ status. Stops D.Disk K.Sink (record { index = index.now.opening; names = names.now }) status disk.old disk.new sink.old sink.new) }

    // what it leaves
    ensures counted { PutsOn K.Sink sink.old sink.new }
    ensures disk { ReadsDisk D.Disk disk.old disk.new }
{
    index.facts();
    let range = events_to_read(index, span);
    let mut held = Stretch::none(alloc);
    let mut at = range.start;
    let mut before = 0;
    let mut number = 0;
    while let Some(batch) = index.batch(number) {
        let place = BatchPlace {
            number,
            before,
            batch,
        };
        let end = range.stop.min(before + batch.events);
        if at < end {
            held.reach(alloc, index, disk, names, place, at)?;
            let events = held.part(at, end);
            write_events_within(sink, text, names, events, span)?;
            at += events.len() as u64;
        } else {
            before += batch.events;
            number += 1;
        }
    }
    Ok(())
}

/// Writes the lines of the changes of the index that are in the span, which has these names. Of the records of events only
/// those are read that may have one of them, each once, and no more than one of them is held.
///
/// `DumpStatus::SinkFault` where a write failed, `DumpStatus::DiskFault` where the disk failed, `DumpStatus::NoMemory` for
/// want of memory, `DumpStatus::Refused` for the first record that is read and damaged.
pub fn write_span<D: Disk, K: Sink>(
    alloc: Global,
    index: &Index,
    disk: &mut D,
    names: &Names,
    sink: &mut K,
    span: Span,
) -> Result<(), DumpStatus>
    requires image { IfSome (D.image disk.old) (λ image. opening image ≡ Ok (record { index = index.now.opening; names = names.now })) }
    ensures text { OnOk result (WhereStands (D.image disk.old) (λ z. K.written sink.new ≡ grown (K.written sink.old) (span_text span z))) }

    // why not all is written
    ensures part { IfErr result (λ status. WhereStands (D.image disk.old) (λ z. GainsSpan status (K.written sink.old) (span_text span z) (K.written sink.new))) }
    ensures stopped { IfErr result (λ status. Stops D.Disk K.Sink (record { index = index.now.opening; names = names.now }) status disk.old disk.new sink.old sink.new) }

    // what it leaves
    ensures disk { ReadsDisk D.Disk disk.old disk.new }
{
    let mut text = Vec::new(alloc);
    write_changes(alloc, index, disk, names, sink, &mut text, span)?;
    write_whole(sink, &text)?;
    Ok(())
}
