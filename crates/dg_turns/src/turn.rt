//! One turn over the script: an entry, and its reply.
ghost use Rattle.std.specs.Prelude.{◌≡◌, ◌≢◌, ◌<◌, IfErr, IfOk, IsErrOf};
ghost use Rattle.dg_io.specs.Calls.{FailsToRead, TakesFrom};
ghost use Rattle.dg_io.specs.LinesState.{to_come};
ghost use Rattle.dg_turns.specs.Grammars.{grammar_of};
ghost use Rattle.dg_turns.specs.Turns.{BreaksTurn, CutsTurn, MakesTurn, TakesAll};

use crate::commands::Commands;
use crate::entry::{Taken, next_entry};
use crate::machine::Machine;
use crate::stop::Stop;
use dg_io::{LineFault, Lines, Source};
use dg_machine::Reply;
use std::thread::Threads;

/// What one turn over the script comes to.
#[derive(Drop)]
pub enum Turn {
    /// The script is at its end.
    End,
    /// The line has no reply.
    Skipped,
    /// The reply to a command, or to a line that asks for nothing.
    Replied(Reply),
}

/// Takes the next line of the script and, where it is a command, the lines that follow it, and lets the machine carry
/// it out.
pub(crate) fn next_turn<R: Threads + Sync, S: Source, W, M: Machine<W>>(
    rt: &R,
    commands: Commands,
    machine: &mut M,
    world: &mut W,
    lines: &mut Lines,
    source: &mut S,
) -> Result<Turn, Stop>
    requires holds { M.holds machine.old world.old }
    requires takes { TakesAll M.Machine (grammar_of commands) }
    ensures turn { IfOk result (MakesTurn M.Machine S.Source (grammar_of commands) machine.old world.old lines.old source.old
        machine.new world.new lines.new source.new) }
    ensures holds { IfOk result (λ turn. M.holds machine.new world.new) }
    ensures falls { IfOk result (λ turn. turn ≢ Turn.End → to_come lines.new < to_come lines.old) }

    // errors
    ensures cut { IfErr result (λ why. why ≢ Stop.World → CutsTurn M.Machine S.Source (grammar_of commands) machine.old world.old lines.old source.old
        machine.new world.new lines.new source.new) }
    ensures broken { IsErrOf result Stop.World → BreaksTurn M.Machine S.Source (grammar_of commands) machine.old world.old lines.old source.old
        machine.new world.new lines.new source.new }
    ensures read { IsErrOf result Stop.Read → FailsToRead S.Source source.old source.new }
    ensures limit { IsErrOf result Stop.Limit → lines.new.taken ≡ lines.new.limit }

    // frame
    ensures lines { TakesFrom S.Source lines.old source.old lines.new source.new }
{
    match next_entry(commands, lines, source) {
        Ok(Taken::End) => Ok(Turn::End),
        Ok(Taken::Skipped) => Ok(Turn::Skipped),
        Ok(Taken::Refused(refusal)) => Ok(Turn::Replied(Reply::Refused(refusal))),
        Ok(Taken::Command(command)) => match machine.carry(rt, &command, lines, source, world) {
            Ok(reply) => Ok(Turn::Replied(reply)),
            Err(why) => Err(why),
        },
        Err(LineFault::Read) => Err(Stop::Read),
        Err(LineFault::Limit) => Err(Stop::Limit),
    }
}
