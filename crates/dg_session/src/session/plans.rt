//! Plans, certificates, and the listing of the records.

ghost use Rattle.std.specs.Prelude.{◌≡◌, ℕ, ◌<◌, ◌≤◌, IsErrOf, List, [], ◌∷◌, Ok, Err, Option, None, Some};
ghost use Rattle.dg_io.specs.Calls.{FailsToRead, TakesFrom};
ghost use Rattle.dg_cuts.specs.TakenLines.{CutsWithin, TakesBehind};
ghost use Rattle.dg_io.specs.LinesState.{NeedsByte};
ghost use Rattle.dg_history.specs.declared.limits.TheConstants.{BATCH_LINES_MAX};
ghost use Rattle.dg_text.specs.Lines.{ScriptLine};
ghost use Rattle.dg_machine.specs.Answer.{headed};
ghost use Rattle.dg_session.specs.Session.{ComesTo, TakesLines};
ghost use Rattle.dg_batch.specs.declared.stop.Stop.TheVariants as stop;

use super::Session;
use crate::needs::Needs;
use dg_ask::{judge, plan_reply, tree_reply};
use dg_batch::{Halt, Stop, read_plan_lines};
use dg_graph::Columns;
use dg_io::{Lines, Source};
use dg_machine::{Command, Head, Refusal, Reply};

impl Session {
    // The least plan of the instant `t` in these columns.
    pub(super) fn plan(&mut self, t: u64, cols: Columns) -> Result<Reply, Halt>
        ensures comes { (image : Option (List ℕ)) → ComesTo (Command.Plan t cols) [] self.old.parts image self.new.parts image result }
        ensures no_stop { (stop : Stop) → result ≡ Err (Halt.Stop stop) → ⊥ }
    {
        let times = [t];
        let needs = Needs {
            index: true,
            instants: &times,
            ..Needs::NOTHING
        };
        if let Some(refusal) = self.refused(&needs, 0) {
            return Err(Halt::Refusal(refusal));
        }
        let Some(index) = &self.held.live.history.index else {
            unreachable!()
        };
        self.planner
            .keep(self.alloc, index, &self.held.handles, cols)?;
        let planner = self.planner.planner(cols);
        let recent = &self.held.live.history.recent;
        Ok(plan_reply(self.alloc, planner, index, recent, t, cols)?)
    }

    // What is said of the certificate for the instant `t` in these columns that the lines that follow
    // write. They are all read.
    pub(super) fn certify<S: Source>(
        &mut self,
        t: u64,
        cols: Columns,
        count: u32,
        lines: &mut Lines,
        source: &mut S,
    ) -> Result<Reply, Halt>
        requires few { count ≤ BATCH_LINES_MAX }

        // what it comes to
        ensures comes { (image : Option (List ℕ)) → (got : List ScriptLine)
            × TakesLines (TakesBehind count lines.old (S.left source.old) lines.new (S.left source.new)) (CutsWithin count lines.old (S.left source.old) lines.new (S.left source.new)) got result
            × ComesTo (Command.Certify t cols count) got self.old.parts image self.new.parts image result }

        // why it stops
        ensures read { IsErrOf result (Halt.Stop Stop.Read) → FailsToRead S.Source source.old source.new }
        ensures limit { IsErrOf result (Halt.Stop Stop.Limit) → lines.new.taken ≡ lines.new.limit }
        ensures due { 1 ≤ count → lines.old.taken ≡ lines.old.limit → NeedsByte lines.old → result ≡ Err (Halt.Stop Stop.Limit) }
        ensures no_store { IsErrOf result (Halt.Stop Stop.Store) → ⊥ }

        // what it takes
        ensures lines { TakesFrom S.Source lines.old source.old lines.new source.new }
    {
        let times = [t];
        let unread = Needs {
            index: true,
            instants: &times,
            ..Needs::NOTHING
        };
        let is_kept = self.refused(&unread, 0).is_none();
        let written = read_plan_lines(self.alloc, count, is_kept, lines, source)?;
        let needs = Needs {
            lines: Some(count),
            ..unread
        };
        if let Some(refusal) = self.refused(&needs, written.read) {
            return Err(Halt::Refusal(refusal));
        }
        let Some(index) = &self.held.live.history.index else {
            unreachable!()
        };
        if !written.is_whole {
            return Err(Halt::Refusal(Refusal::OutOfMemory));
        }
        self.planner
            .keep(self.alloc, index, &self.held.handles, cols)?;
        let planner = self.planner.planner(cols);
        let recent = &self.held.live.history.recent;
        let verdict = judge(self.alloc, planner, index, recent, t, &written.said)?;
        Ok(Reply::headed(self.alloc, Head::Certified(verdict)))
    }

    // The parameters of the index, and a line for each of its records.
    pub(super) fn tree(&self) -> Result<Reply, Halt>
        ensures comes { (image : Option (List ℕ)) → ComesTo Command.Tree [] self.now.parts image self.now.parts image result }
        ensures no_stop { (stop : Stop) → result ≡ Err (Halt.Stop stop) → ⊥ }
    {
        let needs = Needs {
            index: true,
            ..Needs::NOTHING
        };
        if let Some(refusal) = self.refused(&needs, 0) {
            return Err(Halt::Refusal(refusal));
        }
        let Some(index) = &self.held.live.history.index else {
            unreachable!()
        };
        let reply = tree_reply(self.alloc, index)?;
        Ok(reply)
    }
}
