//! The lines of a batch, with their changes up to the first line that is none.
ghost use Rattle.std.specs.Prelude.{◌≡◌, ◌+◌, ◌*◌, ◌≤◌, ◌<◌, List, Ok, Err, None, true, false, take, length, IfOk, IfSome, IsErrOf, IsTrue, OnErr, vec_len};
ghost use Rattle.dg_io.specs.Calls.{FailsToRead, TakesFrom};
ghost use Rattle.dg_cuts.specs.TakenLines.{CutsWithin, TakesBehind};
ghost use Rattle.dg_io.specs.LinesState.{told, LineComes, NeedsByte, TookLine, TookNone};
ghost use Rattle.dg_text.specs.declared.limits.TheConstants.{NAMES_MAX};
ghost use Rattle.dg_changes.specs.ChangeGrammar.{change_by_text_in};
ghost use Rattle.dg_text.specs.Lines.{ScriptLine};
ghost use Rattle.dg_batch.specs.BatchLines.{KeepsChange, ReadsAs, ReadsBatch, IsShort, IsShortBatch, first_refusal, line_read};

use crate::halt::Halt;
use crate::stop::Stop;
use dg_append::{Batch, Front};
use dg_graph::Change;
use dg_io::{Line, Lines, Source};
use dg_line::{ChangeFault, read_change};
use dg_machine::Refusal;
use dg_names::Names;
use std::alloc::Global;

// Whether every change is kept.
fn is_whole(front: Front) -> bool
    ensures whole { result ≡ true → front ≡ Front.Whole }
    ensures other { result ≡ false → front ≡ Front.Whole → ⊥ }
{
    matches!(front, Front::Whole)
}

// What the lines that follow a command came to.
#[derive(Drop)]
struct BatchLines {
    // How many lines were read.
    read: u32,
    // How far their changes are kept.
    front: Front,
    // The changes that are kept.
    changes: Vec<Change>,
}

// The next line that follows a command. Its text is in `lines`.
pub(crate) fn next_line<S: Source>(lines: &mut Lines, source: &mut S) -> Result<Line, Stop>
    ensures comes { IfOk result (λ line. LineComes line
        (told lines.old (S.left source.old)) (told lines.new (S.left source.new)) lines.new.text) }
    ensures whole { IfOk result (λ line. TookLine line lines.old (S.left source.old) lines.new (S.left source.new)) }
    ensures end { result ≡ Ok Line.End → IsTrue lines.new.ended }
    ensures advances { TakesFrom S.Source lines.old source.old lines.new source.new }
    ensures kept { OnErr result (TookNone lines.old (S.left source.old) lines.new (S.left source.new)) }
    ensures read { IsErrOf result Stop.Read → FailsToRead S.Source source.old source.new }
    ensures limit { IsErrOf result Stop.Limit → lines.new.taken ≡ lines.new.limit }
    ensures needs { OnErr result (NeedsByte lines.new) }
    ensures due { lines.old.taken ≡ lines.old.limit → NeedsByte lines.old → result ≡ Err Stop.Limit }
    ensures no_store { IsErrOf result Stop.Store → ⊥ }
{
    let line = lines.next(source)?;
    Ok(line)
}

// Whether no line came.
pub(crate) fn is_end(line: Line) -> bool
    ensures end { result ≡ true → line ≡ Line.End }
    ensures more { result ≡ false → line ≡ Line.End → ⊥ }
{
    matches!(line, Line::End)
}

// Keeps the change of a line behind those of the lines before it, all of which are kept, and answers
// how far they are kept then.
fn keep_change(line: Line, text: &[u8], names: &mut Names, changes: &mut Vec<Change>) -> Front
    requires { length names.old + 2 ≤ NAMES_MAX }
    ensures keeps { KeepsChange result (change_by_text_in (line_read line text.now)) names.old names.new changes.old.items changes.new.items }
    ensures kept { take (length names.old) names.new ≡ names.old }
    ensures few { length names.new ≤ length names.old + 2 }
    ensures one { vec_len changes.new ≤ vec_len changes.old + 1 }
{
    let change = match line {
        Line::Text(_) => read_change(text, names),
        Line::TooLong | Line::End => return Front::Form,
    };
    match change {
        Ok(change) => {
            if changes.push(change).is_ok() {
                Front::Whole
            } else {
                Front::Unkept
            }
        }
        Err(ChangeFault::Form) => Front::Form,
        Err(ChangeFault::Memory) => Front::Unkept,
    }
}

// Reads the `count` lines that follow a command, or those up to the end of input, and keeps their
// changes up to the first line that is no change, where they are wanted. The names get the texts that
// they lack.
fn read_lines<S: Source>(
    alloc: Global,
    count: u32,
    is_wanted: bool,
    names: &mut Names,
    lines: &mut Lines,
    source: &mut S,
) -> Result<BatchLines, Stop>
    requires room { is_wanted ≡ true → length names.old + 2 * count ≤ NAMES_MAX }

    // the lines
    ensures reads { IfOk result (λ batch. (got : List ScriptLine)
        × TakesBehind count lines.old (S.left source.old) lines.new (S.left source.new) got
        × ReadsAs got batch.read batch.front names.old names.new batch.changes.items) }
    ensures most { IfOk result (λ batch. batch.read ≤ count) }
    ensures within { IfOk result (λ batch. vec_len batch.changes ≤ batch.read) }
    ensures kept { take (length names.old) names.new ≡ names.old }
    ensures few { IfOk result (λ batch. batch.front ≡ Front.Whole → length names.new ≤ NAMES_MAX) }
    ensures ended { IfOk result (λ batch. batch.read < count → IsTrue lines.new.ended) }

    // why it stops
    ensures read { IsErrOf result Stop.Read → FailsToRead S.Source source.old source.new }
    ensures limit { IsErrOf result Stop.Limit → lines.new.taken ≡ lines.new.limit }
    ensures cut { OnErr result (CutsWithin count lines.old (S.left source.old) lines.new (S.left source.new)) }
    ensures due { 1 ≤ count → lines.old.taken ≡ lines.old.limit → NeedsByte lines.old → result ≡ Err Stop.Limit }
    ensures no_store { IsErrOf result Stop.Store → ⊥ }

    // what it takes
    ensures advances { TakesFrom S.Source lines.old source.old lines.new source.new }
{
    let mut changes = Vec::new(alloc);
    let mut front = if is_wanted && changes.reserve(count as usize).is_ok() {
        Front::Whole
    } else {
        Front::Unkept
    };
    let mut read: u32 = 0;
    while read < count {
        let line = next_line(lines, source)?;
        if is_end(line) {
            break;
        }
        read += 1;
        if is_whole(front) {
            front = keep_change(line, lines.text(), names, &mut changes);
        }
    }
    Ok(BatchLines {
        read,
        front,
        changes,
    })
}

// Why a command of `count` lines is refused of which so many were read, before they are completed.
fn first_refusal(read: u32, count: u32, barred: Option<Refusal>) -> Option<Refusal>
    ensures { result ≡ first_refusal read count barred }
{
    if read < count {
        Some(Refusal::ShortBatch(read, count))
    } else {
        barred
    }
}

/// Reads the `count` lines that follow a command, or those up to the end of input, as a batch behind the names. `barred`
/// says why no batch is added, whatever its lines are. The names get the texts of the lines that they lack; where the
/// lines are no batch to be completed, they are as they were.
///
/// `Halt::Refusal` where the lines are too few, or where the batch is barred. `Stop::Read` where a
/// read failed, `Stop::Limit` where another byte is needed and as many as the limit allows were taken.
pub fn read_batch<S: Source>(
    alloc: Global,
    count: u32,
    barred: Option<Refusal>,
    names: &mut Names,
    lines: &mut Lines,
    source: &mut S,
) -> Result<Batch, Halt>
    requires room { barred ≡ None → length names.old + 2 * count ≤ NAMES_MAX }

    // the lines
    ensures reads { ReadsBatch count barred (TakesBehind count lines.old (S.left source.old) lines.new (S.left source.new))
        (CutsWithin count lines.old (S.left source.old) lines.new (S.left source.new)) names.old names.new result }
    ensures ended { IfSome barred (λ r. IsShort r → ⊥) → IsShortBatch result → IsTrue lines.new.ended }

    // why it stops
    ensures read { IsErrOf result (Halt.Stop Stop.Read) → FailsToRead S.Source source.old source.new }
    ensures limit { IsErrOf result (Halt.Stop Stop.Limit) → lines.new.taken ≡ lines.new.limit }
    ensures due { 1 ≤ count → lines.old.taken ≡ lines.old.limit → NeedsByte lines.old → result ≡ Err (Halt.Stop Stop.Limit) }
    ensures no_store { IsErrOf result (Halt.Stop Stop.Store) → ⊥ }

    // what it takes
    ensures advances { TakesFrom S.Source lines.old source.old lines.new source.new }
{
    let known = names.len();
    match read_lines(alloc, count, barred.is_none(), names, lines, source) {
        Ok(
            BatchLines {
                read,
                front,
                changes,
            },
        ) => match first_refusal(read, count, barred) {
            None => Ok(Batch {
                known,
                front,
                changes,
            }),
            Some(refusal) => {
                names.cut(known);
                Err(Halt::Refusal(refusal))
            }
        },
        Err(stop) => {
            names.cut(known);
            Err(Halt::Stop(stop))
        }
    }
}
