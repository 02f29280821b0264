//! The lines of events.
ghost use Rattle.std.specs.Prelude.{◌≡◌, ◌++◌, [], ◌∷◌, codes, decimal, if◌then◌else◌, map, OnOk, OnErr};
ghost use Rattle.dg_machine.specs.ReplyText.{text_line};
ghost use Rattle.dg_text.specs.Names.{name_text};
ghost use Rattle.dg_dump.specs.ScriptOfHistory.{event_line, text_of_lines};
ghost use Rattle.dg_dump_lines.specs.PutLines.{GoesOn, ReadBackAs, behind};

use crate::word::{Word, put_line};
use dg_dump::law_texts_read_back;
use dg_graph::{Body, Event};
use dg_names::Names;
use std::alloc::AllocError;

/// Puts the line of each event behind the text, in their order. `AllocError` for want of memory: then the text is as it was.
pub fn put_events(text: &mut Vec<u8>, names: &Names, events: &[Event]) -> Result<(), AllocError>
    // The lines, and that the reader reads them back.
    ensures put { OnOk result (text.new.items ≡ text.old.items ++ text_of_lines (map (event_line names.now) events.now)) }
    ensures read_back { OnOk result (ReadBackAs names.now events.now (behind text.old.items text.new.items)) }

    // No memory.
    ensures err { OnErr result (text.new.items ≡ text.old.items) }
{
    law_texts_read_back();
    put_all(text, names, events)
}

/// Puts the line of the change that comes to the event behind the text, with a line feed after it. A name that there is not
/// stands for the empty text. `AllocError` for want of memory: then the text is as it was.
pub fn put_event(text: &mut Vec<u8>, names: &Names, event: &Event) -> Result<(), AllocError>
    // The line, and that the reader reads it back.
    ensures put { OnOk result (text.new.items ≡ text.old.items ++ (event_line names.now event.now ++ 10 ∷ [])) }
    ensures read_back { OnOk result (ReadBackAs names.now (event.now ∷ []) (behind text.old.items text.new.items)) }

    // No memory.
    ensures err { OnErr result (text.new.items ≡ text.old.items) }
{
    law_texts_read_back();
    put_change(text, names, event)
}

// The line of each event.
#[tactic(auto, using(crate::proofs::Lines::cut_back))]
fn put_all(text: &mut Vec<u8>, names: &Names, events: &[Event]) -> Result<(), AllocError>
    ensures put { OnOk result (text.new.items ≡ text.old.items ++ text_of_lines (map (event_line names.now) events.now)) }
    ensures err { OnErr result (text.new.items ≡ text.old.items) }
{
    let before = text.len();
    match put_each(text, names, events) {
        Ok(()) => Ok(()),
        Err(error) => {
            text.truncate(before);
            Err(error)
        }
    }
}

// The line of each event. After an `Err` some of the lines may stand behind the text.
fn put_each(text: &mut Vec<u8>, names: &Names, events: &[Event]) -> Result<(), AllocError>
    ensures put { OnOk result (text.new.items ≡ text.old.items ++ text_of_lines (map (event_line names.now) events.now)) }
    ensures kept { GoesOn text.old.items text.new.items }
{
    for event in events {
        put_change(text, names, event)?;
    }
    Ok(())
}

// The line of the change that comes to the event.
fn put_change(text: &mut Vec<u8>, names: &Names, event: &Event) -> Result<(), AllocError>
    ensures put { OnOk result (text.new.items ≡ text.old.items ++ (event_line names.now event.now ++ 10 ∷ [])) }
    ensures err { OnErr result (text.new.items ≡ text.old.items) }
{
    let time = event.time;
    match event.body {
        Body::NodeAdded { id } => put_id(text, time, b"+node", id),
        Body::NodeRemoved { id } => put_id(text, time, b"-node", id),
        Body::EdgeAdded {
            directed,
            id,
            src,
            dst,
        } => put_edge(text, time, directed, id, src, dst),
        Body::EdgeRemoved { id, .. } => put_id(text, time, b"-edge", id),
        Body::NodeAttr { key, id, new, .. } => match new {
            Some(value) => put_setting(text, names, time, b"nset", id, key, value),
            None => put_unset(text, names, time, b"ndel", id, key),
        },
        Body::EdgeAttr { key, id, new, .. } => match new {
            Some(value) => put_setting(text, names, time, b"eset", id, key, value),
            None => put_unset(text, names, time, b"edel", id, key),
        },
        Body::Message { src, dst, value } => put_message(text, names, time, src, dst, value),
    }
}

// A line that ends with an id: of a node that is added or removed, or of an edge that is removed.
fn put_id(text: &mut Vec<u8>, time: u64, verb: &[u8], id: u64) -> Result<(), AllocError>
    ensures put { OnOk result (text.new.items ≡ text.old.items ++ text_line (decimal time ∷ verb.now ∷ decimal id ∷ [])) }
    ensures err { OnErr result (text.new.items ≡ text.old.items) }
{
    put_line(
        text,
        &[Word::Number(time), Word::Text(verb), Word::Number(id)],
    )
}

// The line of an edge that is added.
fn put_edge(
    text: &mut Vec<u8>,
    time: u64,
    directed: bool,
    id: u64,
    src: u64,
    dst: u64,
) -> Result<(), AllocError>
    ensures put { OnOk result (text.new.items ≡ text.old.items
        ++ text_line (decimal time ∷ codes "+edge" ∷ decimal id ∷ decimal src ∷ decimal dst ∷ (if directed then codes "dir" else codes "undir") ∷ [])) }
    ensures err { OnErr result (text.new.items ≡ text.old.items) }
{
    let direction = if directed {
        b"dir".as_slice()
    } else {
        b"undir".as_slice()
    };
    put_line(
        text,
        &[
            Word::Number(time),
            Word::Text(b"+edge"),
            Word::Number(id),
            Word::Number(src),
            Word::Number(dst),
            Word::Text(direction),
        ],
    )
}

// The line of a value that is set at a node or an edge. The value is the rest of the line, with its spaces.
fn put_setting<'a>(
    text: &mut Vec<u8>,
    names: &'a Names,
    time: u64,
    verb: &'a [u8],
    id: u64,
    key: u32,
    value: u32,
) -> Result<(), AllocError>
    ensures put { OnOk result (text.new.items ≡ text.old.items
        ++ text_line (decimal time ∷ verb.now ∷ decimal id ∷ name_text names.now key ∷ name_text names.now value ∷ [])) }
    ensures err { OnErr result (text.new.items ≡ text.old.items) }
{
    put_line(
        text,
        &[
            Word::Number(time),
            Word::Text(verb),
            Word::Number(id),
            Word::Text(text_of(names, key)),
            Word::Text(text_of(names, value)),
        ],
    )
}

// The line of a value that is taken away.
fn put_unset<'a>(
    text: &mut Vec<u8>,
    names: &'a Names,
    time: u64,
    verb: &'a [u8],
    id: u64,
    key: u32,
) -> Result<(), AllocError>
    ensures put { OnOk result (text.new.items ≡ text.old.items ++ text_line (decimal time ∷ verb.now ∷ decimal id ∷ name_text names.now key ∷ [])) }
    ensures err { OnErr result (text.new.items ≡ text.old.items) }
{
    put_line(
        text,
        &[
            Word::Number(time),
            Word::Text(verb),
            Word::Number(id),
            Word::Text(text_of(names, key)),
        ],
    )
}

// The line of a message. Its value is the rest of the line.
fn put_message(
    text: &mut Vec<u8>,
    names: &Names,
    time: u64,
    src: u64,
    dst: u64,
    value: u32,
) -> Result<(), AllocError>
    ensures put { OnOk result (text.new.items ≡ text.old.items ++ text_line (decimal time ∷ codes "msg" ∷ decimal src ∷ decimal dst ∷ name_text names.now value ∷ [])) }
    ensures err { OnErr result (text.new.items ≡ text.old.items) }
{
    put_line(
        text,
        &[
            Word::Number(time),
            Word::Text(b"msg"),
            Word::Number(src),
            Word::Number(dst),
            Word::Text(text_of(names, value)),
        ],
    )
}

// The text of the name of this number, or the empty text where there is no such name.
fn text_of(names: &Names, number: u32) -> &[u8]
    ensures { result.now ≡ name_text names.now number }
{
    match names.text(number) {
        Some(text) => text,
        None => b"".as_slice(),
    }
}
