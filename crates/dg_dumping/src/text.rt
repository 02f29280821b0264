//! Text on its way to a sink, in pieces of some KiB.
ghost use Rattle.std.specs.Prelude.{◌≡◌, ◌⊎◌, ◌≤◌, ◌++◌, ◌∷◌, [], IfErr, OnOk, length};
ghost use Rattle.dg_dumping.specs.PutText.{PutFails, Puts, events_text};
ghost use Rattle.dg_dumping.specs.SpanText.{events_within};
ghost use Rattle.dg_io.specs.Calls.{PutsOn};

use crate::span::Span;
use crate::status::DumpStatus;
use dg_dump_lines::put_event;
use dg_graph::Event;
use dg_io::{Sink, write_whole};
use dg_names::Names;

/// The bytes of text from which on it is written.
const PIECE_BYTES: usize = 8192;

// Writes the text, where it is long enough to be written.
fn send<K: Sink>(sink: &mut K, text: &mut Vec<u8>) -> Result<(), DumpStatus>
    ensures put { OnOk result (Puts K.Sink sink.old text.old.items sink.new text.new.items) }
    ensures failed { IfErr result (λ status. PutFails K.Sink sink.old text.old.items status sink.new) }
    ensures counted { PutsOn K.Sink sink.old sink.new }
{
    if text.len() < PIECE_BYTES {
        return Ok(());
    }
    write_whole(sink, text)?;
    text.clear();
    Ok(())
}

// The line of the event, behind the text. What stands before it is written first, where it is long enough, so that the line
// is held.
fn write_event<K: Sink>(
    sink: &mut K,
    text: &mut Vec<u8>,
    names: &Names,
    event: &Event,
) -> Result<(), DumpStatus>
    ensures put { OnOk result (Puts K.Sink sink.old (text.old.items ++ events_text names.now (event.now ∷ [])) sink.new text.new.items) }
    ensures failed { IfErr result (λ status. PutFails K.Sink sink.old (text.old.items ++ events_text names.now (event.now ∷ [])) status sink.new) }
    ensures held { OnOk result (1 ≤ length text.new.items) }
    ensures counted { PutsOn K.Sink sink.old sink.new }
{
    send(sink, text)?;
    put_event(text, names, event)?;
    Ok(())
}

/// Puts the line of each event behind the text, and writes the text where it is long enough.
///
/// `DumpStatus::SinkFault` where a write failed, `DumpStatus::NoMemory` for want of memory.
pub fn write_events<K: Sink>(
    sink: &mut K,
    text: &mut Vec<u8>,
    names: &Names,
    events: &[Event],
) -> Result<(), DumpStatus>
    ensures put { OnOk result (Puts K.Sink sink.old (text.old.items ++ events_text names.now events.now) sink.new text.new.items) }
    ensures failed { IfErr result (λ status. PutFails K.Sink sink.old (text.old.items ++ events_text names.now events.now) status sink.new) }
    ensures counted { PutsOn K.Sink sink.old sink.new }
{
    for event in events {
        write_event(sink, text, names, event)?;
    }
    Ok(())
}

/// Puts the line of each of those events that are in the span behind the text, as `write_events` does. Where it writes, some
/// text is held behind it.
///
/// `DumpStatus::SinkFault` where a write failed, `DumpStatus::NoMemory` for want of memory.
pub fn write_events_within<K: Sink>(
    sink: &mut K,
    text: &mut Vec<u8>,
    names: &Names,
    events: &[Event],
    span: Span,
) -> Result<(), DumpStatus>
    ensures put { OnOk result (Puts K.Sink sink.old (text.old.items ++ events_text names.now (events_within span events.now)) sink.new text.new.items) }
    ensures failed { IfErr result (λ status. PutFails K.Sink sink.old (text.old.items ++ events_text names.now (events_within span events.now)) status sink.new) }
    ensures held { OnOk result ((1 ≤ length text.new.items) ⊎ ((sink.new ≡ sink.old) × (text.new.items ≡ text.old.items))) }
    ensures counted { PutsOn K.Sink sink.old sink.new }
{
    for event in events {
        if span.has(event.time) {
            write_event(sink, text, names, event)?;
        }
    }
    Ok(())
}
