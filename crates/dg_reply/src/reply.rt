//! The text of a reply, line by line, into a sink.
ghost use Rattle.std.specs.Prelude.{◌≡◌, ◌++◌, OnOk, OnErr};
ghost use Rattle.dg_machine.specs.ReplyText.{text, body_text};
ghost use Rattle.dg_io.specs.Calls.{FailsToPut, PutsOn, PutsPart};
ghost use Rattle.dg_io.specs.Told.{grown};
ghost use Rattle.dg_reply.specs.Buffered.{IsBuffered, text_before_end};

use crate::body_line::hold_body_line;
use crate::head::head_line;
use crate::refusal::refusal_line;
use crate::reply_buffer::{ReplyBuffer, Word};
use dg_io::{Failed, Sink};
use dg_machine::{BodyLines, Reply};
use dg_names::Names;

// Its frame is large, and stands on the stack only while it runs.
/// Writes the text of a reply: its first line, the lines of the body, and `end`. The names are those
/// whose numbers the reply has; a number that none of them has stands for the empty text. It takes
/// no memory. `Failed` where a write failed: then a part of the text is written, and never all of it.
#[inline(never)]
pub fn write_reply<K: Sink>(sink: &mut K, names: &Names, reply: &Reply) -> Result<(), Failed>
    ensures ok { OnOk result (K.written sink.new ≡ grown (K.written sink.old) (text names.now reply.now)) }
    ensures err { OnErr result (PutsPart K.Sink sink.old (text names.now reply.now) sink.new) }
    ensures cause { OnErr result (FailsToPut K.Sink sink.old sink.new) }
    ensures counted { PutsOn K.Sink sink.old sink.new }
{
    let mut buffer = ReplyBuffer::new();
    put_reply(&mut buffer, sink, names, reply)?;
    buffer.put_line(sink, &[Word::Text(b"end")])?;
    buffer.flush(sink)
}

// The lines of a reply before `end`.
fn put_reply<K: Sink>(
    buffer: &mut ReplyBuffer,
    sink: &mut K,
    names: &Names,
    reply: &Reply,
) -> Result<(), Failed>
    ensures ok { OnOk result (IsBuffered (K.written sink.old) (buffer.old ++ text_before_end names.now reply.now) (K.written sink.new) buffer.new) }
    ensures err { OnErr result (PutsPart K.Sink sink.old (buffer.old ++ text_before_end names.now reply.now) sink.new) }
    ensures cause { OnErr result (FailsToPut K.Sink sink.old sink.new) }
    ensures counted { PutsOn K.Sink sink.old sink.new }
{
    match reply {
        Reply::Refused(refusal) => buffer.put_line(sink, refusal_line(*refusal).words()),
        Reply::Answered { head, body } => {
            buffer.put_line(sink, head_line(head).words())?;
            put_body(buffer, sink, names, body)
        }
    }
}

fn put_body<K: Sink>(
    buffer: &mut ReplyBuffer,
    sink: &mut K,
    names: &Names,
    lines: &BodyLines,
) -> Result<(), Failed>
    ensures ok { OnOk result (IsBuffered (K.written sink.old) (buffer.old ++ body_text names.now lines.now) (K.written sink.new) buffer.new) }
    ensures err { OnErr result (PutsPart K.Sink sink.old (buffer.old ++ body_text names.now lines.now) sink.new) }
    ensures cause { OnErr result (FailsToPut K.Sink sink.old sink.new) }
    ensures counted { PutsOn K.Sink sink.old sink.new }
{
    for number in 0..lines.len() {
        buffer.make_room(sink)?;
        hold_body_line(buffer, names, &lines.line(number));
    }
    Ok(())
}
