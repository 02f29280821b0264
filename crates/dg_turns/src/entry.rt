//! What the next line of a script comes to.
ghost use Rattle.std.specs.Prelude.{◌≡◌, ◌≢◌, ◌<◌, IfOk, IsErrOf, OnErr};
ghost use Rattle.dg_io.specs.Calls.{FailsToRead, TakesFrom};
ghost use Rattle.dg_io.specs.LinesState.{to_come};
ghost use Rattle.dg_turns.specs.Entries.{CutsNext, Means, TakesNext};
ghost use Rattle.dg_turns.specs.Grammars.{grammar_of};

use crate::commands::Commands;
use dg_io::{Line, LineFault, Lines, Source};
use dg_line::Syntax;
use dg_machine::{Command, Refusal};

// The first byte of a line that is skipped.
const COMMENT: u8 = b'#';

/// What the next line of a script comes to.
#[derive(Clone, Copy)]
pub enum Taken {
    /// The script is at its end.
    End,
    /// The line is empty, or begins with `#`, and has no reply.
    Skipped,
    /// The line is too long, or in no command, and is refused so.
    Refused(Refusal),
    /// The line is this command. The lines that follow it are still to come.
    Command(Command),
}

/// Takes the next line of a script that may have these commands.
///
/// `LineFault::Read` where a read of the source failed, `LineFault::Limit` where another byte is needed and as many as
/// the limit were taken.
pub fn next_entry<S: Source>(
    commands: Commands,
    lines: &mut Lines,
    source: &mut S,
) -> Result<Taken, LineFault>
    ensures taken { IfOk result (TakesNext S.Source (grammar_of commands) lines.old source.old lines.new source.new) }
    ensures falls { IfOk result (λ taken. taken ≢ Taken.End → to_come lines.new < to_come lines.old) }

    // errors
    ensures cut { OnErr result (CutsNext S.Source (grammar_of commands) lines.old source.old lines.new source.new) }
    ensures read { IsErrOf result LineFault.Read → FailsToRead S.Source source.old source.new }
    ensures limit { IsErrOf result LineFault.Limit → lines.new.taken ≡ lines.new.limit }

    // frame
    ensures lines { TakesFrom S.Source lines.old source.old lines.new source.new }
{
    match lines.next(source) {
        Ok(Line::End) => Ok(Taken::End),
        Ok(Line::TooLong) => Ok(Taken::Refused(Refusal::LineLong)),
        Ok(Line::Text(_)) => Ok(meaning_of(commands, lines.text())),
        Err(fault) => Err(fault),
    }
}

// What the line is where a command is expected.
fn meaning_of(commands: Commands, line: &[u8]) -> Taken
    ensures { Means (grammar_of commands) result line.now }
{
    match line {
        [] | [COMMENT, ..] => Taken::Skipped,
        _ => match commands.read(line) {
            Ok(command) => Taken::Command(command),
            Err(Syntax(column)) => Taken::Refused(Refusal::Syntax(column)),
        },
    }
}
