//! The plan lines that follow a command.

ghost use Rattle.std.specs.Prelude.{◌≡◌, ◌++◌, [], ◌∷◌, ◌≤◌, ◌<◌, List, Err, true, IfOk, IsErrOf, IsTrue, OnErr};
ghost use Rattle.dg_io.specs.Calls.{FailsToRead, TakesFrom};
ghost use Rattle.dg_cuts.specs.TakenLines.{CutsWithin, TakesBehind};
ghost use Rattle.dg_io.specs.LinesState.{NeedsByte};
ghost use Rattle.dg_text.specs.Lines.{ScriptLine};
ghost use Rattle.dg_machine.specs.CommandGrammar.{plan_line_in};
ghost use Rattle.dg_batch.specs.BatchLines.{line_read};
ghost use Rattle.dg_batch.specs.PlanLines.{ReadsPlanLines};

use crate::batch_lines::{is_end, next_line};
use crate::stop::Stop;
use dg_io::{Line, Lines, Source};
use dg_line::read_plan_line;
use dg_plan::PlanLine;
use std::alloc::Global;

/// What the plan lines that follow a command came to.
#[derive(Drop)]
pub struct PlanLines {
    /// How many lines were read.
    pub read: u32,
    /// Whether each of them is kept. Otherwise they are not wanted, or memory lacked.
    pub is_whole: bool,
    /// What each line says that is kept. `None` is a line in no form.
    pub said: Vec<Option<PlanLine>>,
}

// Keeps what a line says behind those before it, and answers whether it is kept.
fn keep_line(line: Line, text: &[u8], said: &mut Vec<Option<PlanLine>>) -> bool
    ensures { result ≡ true → said.new.items ≡ said.old.items ++ plan_line_in (line_read line text.now) ∷ [] }
{
    let plan_line = match line {
        Line::Text(_) => read_plan_line(text),
        Line::TooLong | Line::End => None,
    };
    said.push(plan_line).is_ok()
}

/// Reads the `count` lines that follow a command, or those up to the end of input, and keeps what each
/// says, where they are wanted.
///
/// `Stop::Read` where a read failed, `Stop::Limit` where another byte is needed and as many as the limit
/// allows were taken.
#[tactic(auto, using(crate::proofs::LinesTaken::taken_none))]
pub fn read_plan_lines<S: Source>(
    alloc: Global,
    count: u32,
    is_wanted: bool,
    lines: &mut Lines,
    source: &mut S,
) -> Result<PlanLines, Stop>
    // the lines
    ensures reads { IfOk result (λ written. (got : List ScriptLine)
        × TakesBehind count lines.old (S.left source.old) lines.new (S.left source.new) got
        × ReadsPlanLines got written) }
    ensures ended { IfOk result (λ written. written.read < count → IsTrue lines.new.ended) }

    // why it stops
    ensures read { IsErrOf result Stop.Read → FailsToRead S.Source source.old source.new }
    ensures limit { IsErrOf result Stop.Limit → lines.new.taken ≡ lines.new.limit }
    ensures cut { OnErr result (CutsWithin count lines.old (S.left source.old) lines.new (S.left source.new)) }
    ensures due { 1 ≤ count → lines.old.taken ≡ lines.old.limit → NeedsByte lines.old → result ≡ Err Stop.Limit }
    ensures no_store { IsErrOf result Stop.Store → ⊥ }

    // what it takes
    ensures advances { TakesFrom S.Source lines.old source.old lines.new source.new }
{
    let mut said = Vec::new(alloc);
    let mut is_whole = is_wanted && said.reserve(count as usize).is_ok();
    let mut read: u32 = 0;
    while read < count {
        let line = next_line(lines, source)?;
        if is_end(line) {
            break;
        }
        read += 1;
        if is_whole {
            is_whole = keep_line(line, lines.text(), &mut said);
        }
    }
    Ok(PlanLines {
        read,
        is_whole,
        said,
    })
}
