//! The run over a script: each reply is written before the next line is read.
ghost use Rattle.std.specs.Prelude.{◌≡◌};
ghost use Rattle.dg_turns.specs.Ends.{Ran, streams};
ghost use Rattle.dg_turns.specs.Grammars.{grammar_of};
ghost use Rattle.dg_turns.specs.Turns.{TakesAll};

use crate::commands::Commands;
use crate::end::End;
use crate::machine::Machine;
use crate::stop::Stop;
use crate::turn::{Turn, next_turn};
use dg_io::{Lines, Sink, Source};
use dg_reply::write_reply;
use std::thread::Threads;

/// Answers a script that may have these commands, all of which the machine carries out, by the machine over its world. Of
/// the script at most `limit` bytes are taken.
// Its frame is large, and stands on the stack only while it runs.
#[inline(never)]
pub fn answer_script<R: Threads + Sync, S: Source, K: Sink, W, M: Machine<W>>(
    rt: &R,
    commands: Commands,
    limit: u64,
    machine: &mut M,
    world: &mut W,
    source: &mut S,
    sink: &mut K,
) -> End
    requires holds { M.holds machine.old world.old }
    requires takes { TakesAll M.Machine (grammar_of commands) }
    ensures ran { Ran M.Machine (grammar_of commands) limit (streams S.Source K.Sink source.old sink.old) machine.old world.old
        result (streams S.Source K.Sink source.new sink.new) machine.new world.new }
    ensures done { result ≡ End.Done → M.holds machine.new world.new }
    ensures part { result ≡ End.SinkFault → M.holds machine.new world.new }
{
    let mut lines = Lines::new(limit);
    loop {
        match next_turn(rt, commands, machine, world, &mut lines, source) {
            Ok(Turn::Skipped) => {}
            Ok(Turn::Replied(reply)) => {
                let written = write_reply(sink, machine.names(), &reply);
                drop(reply);
                if written.is_err() {
                    return End::SinkFault;
                }
            }
            Ok(Turn::End) => return End::Done,
            Err(Stop::Read) => return End::SourceFault,
            Err(Stop::Limit) => return End::ScriptLimit,
            Err(Stop::World) => return End::Broken,
        }
    }
}
