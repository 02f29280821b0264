//! Commands that write: an index is made, a batch is added.

ghost use Rattle.std.specs.Prelude.{◌≡◌, ◌+◌, ◌<◌, ◌≤◌, IsErrOf, List, [], Ok, Err, Option, None, Some, false, is_some};
ghost use Rattle.dg_append.specs.Faults.{OnlyReadFailed};
ghost use Rattle.dg_disk.specs.Calls.{FailsToWrite, LeftByCrash};
ghost use Rattle.dg_io.specs.Calls.{TakesFrom};
ghost use Rattle.dg_cuts.specs.TakenLines.{CutsWithin, TakesBehind};
ghost use Rattle.dg_io.specs.LinesState.{NeedsByte};
ghost use Rattle.dg_history.specs.declared.limits.TheConstants.{BATCH_LINES_MAX};
ghost use Rattle.dg_text.specs.Lines.{ScriptLine};
ghost use Rattle.dg_machine.specs.Answer.{headed};
ghost use Rattle.dg_session.specs.Calls.{HaltsByCause, ReadsFile, TreatsDisk};
ghost use Rattle.dg_session.specs.BatchCommand.{barred, command_with};
ghost use Rattle.dg_session.specs.CreationCommand.{making};
ghost use Rattle.dg_session.specs.Reads.{ReadsIn};
ghost use Rattle.dg_session.specs.Session.{ComesTo, HoldsImage, LeavesCommand, TakesLines};

use super::Session;
use super::indexes::{barred_with, pass, reserve};
use crate::batch_command::BatchCommand;
use crate::creation_command::AskedFunction;
use crate::needs::Needs;
use dg_batch::{Halt, Stop, add_changes, generated_batch, read_batch};
use dg_disk::Disk;
use dg_file::Index;
use dg_history::{Form, Params};
use dg_io::{Lines, Source};
use dg_machine::{Command, Head, Refusal, Reply};
use std::thread::Threads;

impl Session {
    // An empty index with these parameters.
    pub(super) fn create<D: Disk>(
        &mut self,
        disk: &mut D,
        l: u32,
        k: u32,
        asked: AskedFunction,
    ) -> Result<Reply, Halt>
        requires image { HoldsImage self.old.parts (D.image disk.old) }

        // what it comes to
        ensures comes { ComesTo (making l k asked) [] self.old.parts (D.image disk.old) self.new.parts (D.image disk.new) result }

        // why it stops
        ensures store { IsErrOf result (Halt.Stop Stop.Store) → FailsToWrite D.Disk disk.old disk.new }
        ensures no_read { IsErrOf result (Halt.Stop Stop.Read) → ⊥ }
        ensures no_limit { IsErrOf result (Halt.Stop Stop.Limit) → ⊥ }

        // what it reads and leaves, and what a crash leaves
        ensures reads { ReadsIn (making l k asked) self.old.parts (D.image disk.old) result (D.taken disk.old) (D.taken disk.new) }
        ensures disk { TreatsDisk D.Disk disk.old disk.new result }
        ensures crash { LeftByCrash D.Disk disk.old disk.new (LeavesCommand (making l k asked) [] self.old.parts result) }
    {
        let needs = Needs {
            parameters: Some((l, k, asked.share())),
            ..Needs::NOTHING
        };
        if let Some(refusal) = self.refused(&needs, 0) {
            return Err(Halt::Refusal(refusal));
        }
        let function = asked.function();
        let params = Params { l, k, function };
        let index = Index::create(self.alloc, disk, Form::Two, params)?;
        self.planner.forget();
        self.held.live.history.index = Some(index);
        Ok(Reply::headed(self.alloc, Head::Created))
    }

    // Why no batch of so many lines is added, whatever its lines are.
    fn barred(&self, which: BatchCommand, count: u32) -> Option<Refusal>
        ensures { result ≡ barred which self.now.parts count }
    {
        let needs = Needs {
            index: true,
            unloaded: matches!(which, BatchCommand::Load),
            changes: count,
            ..Needs::NOTHING
        };
        self.refused(&needs, 0)
    }

    // The batch of the lines that follow, as the history's first or next one.
    pub(super) fn add<R: Threads, S: Source, D: Disk>(
        &mut self,
        rt: &R,
        which: BatchCommand,
        count: u32,
        lines: &mut Lines,
        source: &mut S,
        disk: &mut D,
    ) -> Result<Reply, Halt>
        requires some { 1 ≤ count }
        requires few { count ≤ BATCH_LINES_MAX }
        requires image { HoldsImage self.old.parts (D.image disk.old) }

        // what it comes to, and what a crash leaves
        ensures comes { (got : List ScriptLine)
            × TakesLines (TakesBehind count lines.old (S.left source.old) lines.new (S.left source.new)) (CutsWithin count lines.old (S.left source.old) lines.new (S.left source.new)) got result
            × ComesTo (command_with which count) got self.old.parts (D.image disk.old) self.new.parts (D.image disk.new) result
            × LeftByCrash D.Disk disk.old disk.new (LeavesCommand (command_with which count) got self.old.parts result) }

        // why it halts
        ensures causes { HaltsByCause S.Source D.Disk source.old disk.old lines.new source.new disk.new result }
        ensures due { 1 ≤ count → lines.old.taken ≡ lines.old.limit → NeedsByte lines.old → result ≡ Err (Halt.Stop Stop.Limit) }

        // what it takes and leaves
        ensures file { ReadsFile D.Disk (command_with which count) self.old.parts disk.old disk.new result }
        ensures lines { TakesFrom S.Source lines.old source.old lines.new source.new }
        ensures disk { TreatsDisk D.Disk disk.old disk.new result }
    {
        let barred = barred_with(self.barred(which, count), &mut self.indexes, count);
        let batch = read_batch(
            self.alloc,
            count,
            barred,
            &mut self.held.live.history.names,
            lines,
            source,
        )?;
        self.planner.forget();
        let added = add_changes(
            rt,
            self.alloc,
            self.limits.file_bytes,
            batch,
            &mut self.held,
            disk,
        )?;
        pass(&mut self.indexes, &added.events);
        Ok(Reply::headed(self.alloc, which.head(added)))
    }

    // The batch that a seed leads to, as the history's first one.
    pub(super) fn workload<R: Threads, D: Disk>(
        &mut self,
        rt: &R,
        seed: u64,
        count: u32,
        disk: &mut D,
    ) -> Result<Reply, Halt>
        requires some { 1 ≤ count }
        requires few { count ≤ BATCH_LINES_MAX }
        requires image { HoldsImage self.old.parts (D.image disk.old) }

        // what it comes to
        ensures comes { ComesTo (Command.Workload seed count) [] self.old.parts (D.image disk.old) self.new.parts (D.image disk.new) result }

        // why it stops
        ensures store { IsErrOf result (Halt.Stop Stop.Store) → FailsToWrite D.Disk disk.old disk.new }
        ensures no_read { IsErrOf result (Halt.Stop Stop.Read) → ⊥ }
        ensures no_limit { IsErrOf result (Halt.Stop Stop.Limit) → ⊥ }
        ensures store_read { IsErrOf result (Halt.Refusal Refusal.StoreRead)
            → OnlyReadFailed D.Disk disk.old disk.new }

        // what it takes and leaves, and what a crash leaves
        ensures file { ReadsFile D.Disk (Command.Workload seed count) self.old.parts disk.old disk.new result }
        ensures disk { TreatsDisk D.Disk disk.old disk.new result }
        ensures crash { LeftByCrash D.Disk disk.old disk.new (LeavesCommand (Command.Workload seed count) [] self.old.parts result) }
    {
        // It is barred by what bars a load.
        if let Some(refusal) = self.barred(BatchCommand::Load, count) {
            return Err(Halt::Refusal(refusal));
        }
        // The reply counts the graph behind the batch, which the pool does. No element is in it yet.
        self.overlay()?;
        reserve(&mut self.indexes, count)?;
        let batch = generated_batch(self.alloc, seed, count, &mut self.held.live.history.names)?;
        self.planner.forget();
        let added = add_changes(
            rt,
            self.alloc,
            self.limits.file_bytes,
            batch,
            &mut self.held,
            disk,
        )?;
        pass(&mut self.indexes, &added.events);
        let Some(pool) = &self.held.live.pool else {
            unreachable!()
        };
        let counts = pool.counts_now();
        Ok(Reply::headed(
            self.alloc,
            Head::Generated {
                events: added.events.len() as u64,
                last: added.last,
                nodes: counts.nodes,
                edges: counts.edges,
            },
        ))
    }
}
