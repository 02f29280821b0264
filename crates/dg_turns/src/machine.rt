//! What carries out the commands of a script.
ghost use Rattle.std.specs.Prelude.{◌≡◌, ◌≢◌, ℕ, List, IfOk, IfErr, IsErrOf};
ghost use Rattle.std.specs.Thread.{IsSync};
ghost use Rattle.dg_io.specs.Calls.{FailsToRead, TakesFrom};
ghost use Rattle.dg_machine.specs.CommandGrammar.{CountIsInRange};
ghost use Rattle.dg_machine.specs.declared.command.Command.{Command};
ghost use Rattle.dg_machine.specs.declared.reply.Reply.{Reply};
ghost use Rattle.dg_machine.specs.Needs.{following};
ghost use Rattle.dg_text.specs.Lines.{ScriptLine};
ghost use Rattle.dg_turns.specs.Behind.{Behind, CutsBehind};

use crate::stop::Stop;
use dg_io::{Lines, Source};
use dg_machine::{Command, Reply};
use dg_names::Names;
use std::thread::Threads;

/// What carries out the commands of a script over a world `W`: a session over a disk, or several over theirs.
pub trait Machine<W> {
    // What holds of it and of its world between two commands.
    ghost holds: { Self → W → Type 0 };

    // The commands that it carries out.
    ghost takes: { Command → Type 0 };

    // The texts of the names by whose numbers a reply speaks.
    ghost texts: { Self → List (List ℕ) };

    // To the command and the lines that follow it, it gives this reply, and goes on so.
    ghost answers: { Command → List ScriptLine → Self → W → Self → W → Reply → Type 0 };

    // Its world failed within the command and these lines, and it is left so.
    ghost breaks: { Command → List ScriptLine → Self → W → Self → W → Type 0 };

    // The lines that follow a command could not be had, and it is left so.
    ghost stays: { Self → W → Self → W → Type 0 };

    /// The names by whose numbers a reply speaks.
    fn names(&self) -> &Names
        ensures { result.now ≡ texts self.now };

    /// Carries out the command, with the lines that follow it.
    ///
    /// `Stop::Read` where a read of the source failed, `Stop::Limit` where another byte is needed and as many as the limit
    /// were taken, `Stop::World` where the world failed.
    fn carry<R: Threads + Sync, S: Source>(
        &mut self,
        rt: &R,
        command: &Command,
        lines: &mut Lines,
        source: &mut S,
        world: &mut W,
    ) -> Result<Reply, Stop>
        // The handle may be shared by threads, as its bound says.
        requires shared { IsSync R.row }
        requires holds { holds self.old world.old }
        requires takes { takes command.now }
        requires range { CountIsInRange command.now }
        ensures answered { IfOk result (λ reply. Behind (following command.now) lines.old (S.left source.old) lines.new (S.left source.new)
            (λ got. answers command.now got self.old world.old self.new world.new reply)) }
        ensures holds { IfOk result (λ reply. holds self.new world.new) }

        // errors
        ensures cut { IfErr result (λ why. why ≢ Stop.World
            → CutsBehind (following command.now) lines.old (S.left source.old) lines.new (S.left source.new) (stays self.old world.old self.new world.new)) }
        ensures broken { IsErrOf result Stop.World → Behind (following command.now) lines.old (S.left source.old) lines.new (S.left source.new)
            (λ got. breaks command.now got self.old world.old self.new world.new) }
        ensures read { IsErrOf result Stop.Read → FailsToRead S.Source source.old source.new }
        ensures limit { IsErrOf result Stop.Limit → lines.new.taken ≡ lines.new.limit }

        // frame
        ensures lines { TakesFrom S.Source lines.old source.old lines.new source.new };

    // Where nothing was asked of it, it is as it was.
    ghost stays_so: { (machine : Self) (world : W) → stays machine world machine world };
}
