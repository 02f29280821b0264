//! The script of an index, batch by batch.
ghost use Rattle.std.specs.Prelude.{◌≡◌, ◌++◌, ◌∷◌, [], IfErr, IfSome, Ok, OnOk};
ghost use Rattle.dg_disk.specs.Calls.{ReadsDisk};
ghost use Rattle.dg_dump.specs.ScriptOfHistory.{batches_lines, script_of, text_of_lines};
ghost use Rattle.dg_dump_lines.specs.PutLines.{verb_text};
ghost use Rattle.dg_dumping.specs.Dumped.{GainsPart, Stops, batch_text, events_at, verb_at};
ghost use Rattle.dg_dumping.specs.PutText.{Puts, events_text};
ghost use Rattle.dg_index.specs.OpenedIndex.{opening};
ghost use Rattle.dg_io.specs.Calls.{PutsOn};
ghost use Rattle.dg_io.specs.Told.{grown};
ghost use Rattle.dg_spans.specs.Stretches.{AreEventsFrom, IsPlaced, WhereStands};

use crate::status::DumpStatus;
use crate::text::write_events;
use dg_disk::Disk;
use dg_dump_lines::{BatchVerb, put_batch_command, put_creation};
use dg_file::Index;
use dg_io::{Sink, write_whole};
use dg_names::Names;
use dg_spans::{BatchPlace, Stretch};
use std::alloc::Global;

// By which command the batch of this number is given.
fn verb_of(number: u32) -> BatchVerb
    ensures { verb_text result ≡ verb_at number }
{
    if number == 0 {
        BatchVerb::Load
    } else {
        BatchVerb::Append
    }
}

// Writes the lines of the events of the batch.
fn write_batch_events<D: Disk, K: Sink>(
    alloc: Global,
    index: &Index,
    disk: &mut D,
    names: &Names,
    sink: &mut K,
    text: &mut Vec<u8>,
    held: &mut Stretch,
    place: BatchPlace,
) -> Result<(), DumpStatus>
    requires placed { IsPlaced index.now.opening place }
    requires image { IfSome (D.image disk.old) (λ image. opening image ≡ Ok (record { index = index.now.opening; names = names.now })) }
    requires own { WhereStands (D.image disk.old) (λ z. AreEventsFrom z held.old.start held.old.events.items) }

    // what is written, and what is held
    ensures put { OnOk result (WhereStands (D.image disk.old)
        (λ z. Puts K.Sink sink.old (text.old.items ++ events_text names.now (events_at z place)) sink.new text.new.items)) }
    ensures own { WhereStands (D.image disk.old) (λ z. AreEventsFrom z held.new.start held.new.events.items) }

    // why not all is
    ensures part { IfErr result (λ status. WhereStands (D.image disk.old)
        (λ z. GainsPart status (K.written sink.old) (text.old.items ++ events_text names.now (events_at z place)) (K.written sink.new))) }
    ensures stopped { IfErr result (λ status. Stops D.Disk K.Sink (record { index = index.now.opening; names = names.now }) status disk.old disk.new sink.old sink.new) }

    // what it leaves
    ensures counted { PutsOn K.Sink sink.old sink.new }
    ensures disk { ReadsDisk D.Disk disk.old disk.new }
{
    index.facts();
    let end = place.before + place.batch.events;
    let mut at = place.before;
    while at < end {
        held.reach(alloc, index, disk, names, place, at)?;
        let events = held.part(at, end);
        write_events(sink, text, names, events)?;
        at += events.len() as u64;
    }
    Ok(())
}

// Writes the command of the batch, and the lines of its events.
fn write_batch<D: Disk, K: Sink>(
    alloc: Global,
    index: &Index,
    disk: &mut D,
    names: &Names,
    sink: &mut K,
    text: &mut Vec<u8>,
    held: &mut Stretch,
    place: BatchPlace,
) -> Result<(), DumpStatus>
    requires placed { IsPlaced index.now.opening place }
    requires image { IfSome (D.image disk.old) (λ image. opening image ≡ Ok (record { index = index.now.opening; names = names.now })) }
    requires own { WhereStands (D.image disk.old) (λ z. AreEventsFrom z held.old.start held.old.events.items) }

    // what is written, and what is held
    ensures put { OnOk result (WhereStands (D.image disk.old)
        (λ z. Puts K.Sink sink.old (text.old.items ++ batch_text z names.now place) sink.new text.new.items)) }
    ensures own { WhereStands (D.image disk.old) (λ z. AreEventsFrom z held.new.start held.new.events.items) }

    // why not all is
    ensures part { IfErr result (λ status. WhereStands (D.image disk.old)
        (λ z. GainsPart status (K.written sink.old) (text.old.items ++ batch_text z names.now place) (K.written sink.new))) }
    ensures stopped { IfErr result (λ status. Stops D.Disk K.Sink (record { index = index.now.opening; names = names.now }) status disk.old disk.new sink.old sink.new) }

    // what it leaves
    ensures counted { PutsOn K.Sink sink.old sink.new }
    ensures disk { ReadsDisk D.Disk disk.old disk.new }
{
    index.facts();
    put_batch_command(text, verb_of(place.number), place.batch.events as u32)?;
    write_batch_events(alloc, index, disk, names, sink, text, held, place)
}

// Writes all batches.
fn write_batches<D: Disk, K: Sink>(
    alloc: Global,
    index: &Index,
    disk: &mut D,
    names: &Names,
    sink: &mut K,
    text: &mut Vec<u8>,
) -> Result<(), DumpStatus>
    requires image { IfSome (D.image disk.old) (λ image. opening image ≡ Ok (record { index = index.now.opening; names = names.now })) }
    ensures put { OnOk result (WhereStands (D.image disk.old)
        (λ z. Puts K.Sink sink.old (text.old.items ++ text_of_lines (batches_lines names.now z.batches)) sink.new text.new.items)) }

    // why not all is written
    ensures part { IfErr result (λ status. WhereStands (D.image disk.old)
        (λ z. GainsPart status (K.written sink.old) (text.old.items ++ text_of_lines (batches_lines names.now z.batches)) (K.written sink.new))) }
    ensures stopped { IfErr result (λ status. Stops D.Disk K.Sink (record { index = index.now.opening; names = names.now }) status disk.old disk.new sink.old sink.new) }

    // what it leaves
    ensures counted { PutsOn K.Sink sink.old sink.new }
    ensures disk { ReadsDisk D.Disk disk.old disk.new }
{
    index.facts();
    let mut held = Stretch::none(alloc);
    let mut before = 0;
    let mut number = 0;
    while let Some(batch) = index.batch(number) {
        let place = BatchPlace {
            number,
            before,
            batch,
        };
        write_batch(alloc, index, disk, names, sink, text, &mut held, place)?;
        before += batch.events;
        number += 1;
    }
    Ok(())
}

/// Writes the script that makes the index, which has these names. Each closed list and each piece behind them is read once,
/// and no more than one of them is held.
///
/// `DumpStatus::SinkFault` where a write failed, `DumpStatus::DiskFault` where the disk failed, `DumpStatus::NoMemory` for
/// want of memory, `DumpStatus::Refused` for the first record that is read and damaged.
pub fn write_script<D: Disk, K: Sink>(
    alloc: Global,
    index: &Index,
    disk: &mut D,
    names: &Names,
    sink: &mut K,
) -> Result<(), DumpStatus>
    requires image { IfSome (D.image disk.old) (λ image. opening image ≡ Ok (record { index = index.now.opening; names = names.now })) }
    ensures script { OnOk result (WhereStands (D.image disk.old) (λ z. K.written sink.new ≡ grown (K.written sink.old) (script_of z))) }

    // why not all is written
    ensures part { IfErr result (λ status. WhereStands (D.image disk.old) (λ z. GainsPart status (K.written sink.old) (script_of z) (K.written sink.new))) }
    ensures stopped { IfErr result (λ status. Stops D.Disk K.Sink (record { index = index.now.opening; names = names.now }) status disk.old disk.new sink.old sink.new) }

    // what it leaves
    ensures disk { ReadsDisk D.Disk disk.old disk.new }
{
    let mut text = Vec::new(alloc);
    put_creation(&mut text, index.params())?;
    write_batches(alloc, index, disk, names, sink, &mut text)?;
    write_whole(sink, &text)?;
    Ok(())
}
