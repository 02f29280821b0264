//! The session over one index file: what it keeps, and the step that carries out a command.

ghost use Rattle.std.specs.Prelude.{◌≡◌, ◌⊎◌, ℕ, ◌+◌, ◌<◌, ◌≤◌, IfErr, IfSome, IsErrOf, OnErr, OnOk, List, [], Ok, Err, Option, None, Some, is_some, option_copied, true, false, not, IfOk};
ghost use Rattle.dg_append.specs.Overlays.{overlaid};
ghost use Rattle.dg_columns.specs.ColumnLaws.{AreBytes};
ghost use Rattle.dg_disk.specs.Calls.{Fails, IsOnDevice, ReadsDisk, SyncsDisk, UsesDisk};
ghost use Rattle.dg_io.specs.Calls.{TakesFrom};
ghost use Rattle.dg_io.specs.LinesState.{NeedsByte};
ghost use Rattle.dg_handles.specs.Handles.{IsTied, slot_graphs};
ghost use Rattle.dg_history.specs.declared.limits.TheConstants.{EVENTS_MAX};
ghost use Rattle.dg_machine.specs.CommandGrammar.{CountIsInRange};
ghost use Rattle.dg_machine.specs.Needs.{following, is_writing};
ghost use Rattle.dg_history.specs.History.{History};
ghost use Rattle.dg_index.specs.ImageOfHistory.{StandsAs};
ghost use Rattle.dg_machine.specs.MachineState.{IsWithin, machine_at};
ghost use Rattle.dg_pool.specs.Graphs.{graph_now};
ghost use Rattle.dg_ask.specs.HeldIndex.{events_held, span_held};
ghost use Rattle.dg_session.specs.Calls.{AnswersCommand, CarriesOut, StopsCommand};
ghost use Rattle.dg_session.specs.Session.{ComesTo, HoldsImage, is_at_hand, StandsFor};
ghost use Rattle.dg_session.specs.SessionState.{handles_of};
ghost use Rattle.dg_session.specs.SessionStart.{Begins, IsNew, IsStanding, RefusesSession};
ghost use Rattle.dg_session.specs.Sweeps.{SweepsNothing, SweepsPool};
ghost use Rattle.dg_start.specs.Calls.{TakesStart};
ghost use Rattle.dg_start.specs.SessionStart.{started_with};
ghost use Rattle.dg_stored.specs.StoredHistory.{index_opening};
ghost use Rattle.dg_batch.specs.declared.stop.Stop.TheVariants as stop;

mod bases;
mod batches;
mod gathering;
mod handles;
mod indexes;
mod opening;
mod plans;
mod queries;
mod refusals;
mod retrievals;
mod selections;
mod upgrades;
mod verification;

use crate::batch_command::BatchCommand;
use crate::creation_command::AskedFunction;
use crate::session_fault::SessionFault;
use dg_ask::{KeptPlanner, span};
use dg_aux::Aux;
use dg_batch::{Halt, Held, Stop};
use dg_disk::Disk;
use dg_handles::law_tie_is_kept;
use dg_index::law_images_are_opened;
use dg_io::{Lines, Source};
use dg_machine::{Command, Limits, Reply, Selection};
use dg_names::Names;
use dg_pool::Pool;
use dg_seed::Seed;
use dg_sound_files::{law_sound_files_stand, law_standing_files_are_sound};
use dg_start::StartFault;
use dg_verify::verify;
use std::alloc::{AllocError, Global};
use std::marker::Model;
use std::thread::Threads;

/// An index with its history, if there is one, the live handles over it, and the indexes of values.
#[derive(Drop)]
pub struct Session {
    limits: Limits,
    held: Held,
    planner: KeptPlanner,
    // The indexes of values, in the order in which they were made.
    indexes: Vec<Aux>,
    alloc: Global,
}

impl Model for Session {
    ghost use Rattle.std.specs.Prelude.{map};
    ghost use Rattle.dg_machine.specs.MachineState.{IsWithin};
    ghost use Rattle.dg_append.specs.Overlays.{pool_in};
    ghost use Rattle.dg_ask.specs.KeptPlanner.{IsKeptFor};
    ghost use Rattle.dg_batch.specs.Held.{IsHeld, graphs_held};
    ghost use Rattle.dg_session.specs.SessionState.{SessionState};
    ghost use Rattle.dg_session.specs.ValuesSaid.{kept_of};
    ghost use Rattle.dg_stored.specs.StoredHistory.{index_opening};

    ghost Value = { SessionState };

    ghost view = { λ s. record {
      parts = record {
        limits = s.limits;
        index = index_opening s.held.live.history.index;
        names = s.held.live.history.names;
        graph = s.held.live.history.now.graph;
        recent = s.held.live.history.recent.items;
        table = s.held.handles.table;
        graphs = graphs_held s.held;
        next = s.held.handles.next;
        indexes = map kept_of s.indexes.items;
      };
      pool = pool_in s.held.live.pool;
      slots = s.held.handles.slots;
    } };

    ghost invariant = { λ s.
        IsWithin s.limits
        × IsHeld s.held
        × IsKeptFor (index_opening s.held.live.history.index) s.held.handles.table s.planner };
}

impl Session {
    /// A session over the index file that the disk has, within these limits, with room for every
    /// handle that may live. Where the file has no index yet, the session has none. Names and current graph hash with the
    /// seed, on which no answer depends.
    ///
    /// It reads the directories, the recent pieces and the records along the plan of the last leaf, and nothing
    /// else. With `checked` it reads all records too, makes anew what the events determine, and compares the two: that
    /// costs what loading all events anew costs, and all events and columns are in memory at once. A file that
    /// passes stands for a history, or for none.
    ///
    /// `SessionFault` says why there is none: the disk failed, the file is not one of an index, a segment, a
    /// record that is read or a recent event is not right, or memory lacks; with `checked` also that a record is not
    /// what the file's own events determine. An image that stands for a history, or for none, is refused only for the
    /// disk or for memory.
    pub fn start<R: Threads + Sync, D: Disk>(
        rt: &R,
        alloc: Global,
        seed: Seed,
        disk: &mut D,
        checked: bool,
        limits: Limits,
    ) -> Result<Session, SessionFault>
        requires limits { IsWithin limits }

        // the session
        ensures started { IfOk result (λ session. IfSome (D.image disk.old) (λ image.
            Begins checked image (Ok (started_with session.parts.index session.parts.names session.parts.graph session.parts.recent)))) }
        ensures new { IfOk result (λ session. IsNew limits session.parts × HoldsImage session.parts (D.image disk.new)) }
        ensures stands { IfOk result (λ session. IfSome (D.image disk.old) (λ image. (index : Option History)
            → StandsAs index image → StandsFor session.parts image (machine_at limits index))) }
        ensures checked { OnOk result (checked ≡ true → IfSome (D.image disk.old) (λ image. AreBytes image → IsStanding image)) }

        // the bytes read, where it is not checked
        ensures takes { checked ≡ false → IfSome (D.image disk.old) (λ image. TakesStart result image (D.taken disk.old) (D.taken disk.new)) }

        // why there is none
        ensures refused { IfErr result (λ fault. IfSome (D.image disk.old) (λ image. RefusesSession checked fault image)) }
        ensures never { IfErr result (λ fault. IfSome (D.image disk.old) (λ image. (index : Option History)
            → StandsAs index image → (fault ≡ SessionFault.Start StartFault.Disk) ⊎ (fault ≡ SessionFault.Start StartFault.Memory))) }
        ensures cause { IsErrOf result (SessionFault.Start StartFault.Disk) → Fails D.Disk disk.old disk.new }

        // what it leaves
        ensures disk { SyncsDisk D.Disk disk.old disk.new }
        ensures settled { OnOk result (IsOnDevice D.Disk disk.new) }
    {
        law_images_are_opened();
        law_standing_files_are_sound();
        law_sound_files_stand();
        let session = Session::begin(rt, alloc, seed, disk, limits)?;
        if checked {
            session.checked(rt, disk)
        } else {
            Ok(session)
        }
    }

    /// The names of the history, by their numbers. Without an index there are none.
    pub fn names(&self) -> &Names
        ensures { result.now ≡ self.now.parts.names }
    {
        &self.held.live.history.names
    }

    /// The pool in which the graphs of the live handles are overlaid on the current one: there is one from the first handle
    /// on. Each live handle has a slot of its own, and no other slot is live.
    pub fn pool(&self) -> Option<&Pool>
        ensures pool { option_copied result ≡ self.now.pool }
        ensures now { IfSome result (λ pool. graph_now pool.now ≡ self.now.parts.graph) }
        ensures graphs { slot_graphs (overlaid self.now.pool) self.now.slots ≡ self.now.parts.graphs }
        ensures tied { IsTied (overlaid self.now.pool) (handles_of self.now) }
    {
        match &self.held.live.pool {
            Some(pool) => Some(pool),
            None => None,
        }
    }

    /// Carries out the command, and answers it. A load and an append read the lines that follow them,
    /// whatever the answer is. A reply that is a refusal leaves what the session keeps, the graphs of its
    /// handles among it, and the disk's image as they were. Only what reads records is refused for damage: a retrieval
    /// for the first column that its tree enters and that is in no spelling, or where there is none for the first column
    /// of messages that are asked for, a node that is to be held for the first that its plan enters, a batch for the first
    /// that the trees of the older children of the interior nodes that it completes enter. One of these that is not
    /// refused has met no such column. Each name in a reply is in the list of names.
    ///
    /// `Stop::Read` where a read of the source failed, `Stop::Limit` where another byte is needed and
    /// as many as the limit allows were taken: the session is then as it was. `Stop::Store` where the
    /// disk failed while an index was made, a batch was added or the file was upgraded, which a command that
    /// is refused does not come to: the image is then as before the command or as after it, and the session
    /// may have no index.
    ///
    /// Where what the disk held was on the device, what it holds after a reply is too, and a crash at any moment of the
    /// step leaves the history before the command or the one after it. There is one exception: while an index is made
    /// over a file that has just the bytes of a header, the first of them may be any.
    pub fn step<R: Threads + Sync, S: Source, D: Disk>(
        &mut self,
        rt: &R,
        command: &Command,
        lines: &mut Lines,
        source: &mut S,
        disk: &mut D,
    ) -> Result<Reply, Stop>
        requires command { CountIsInRange command.now }
        requires image { HoldsImage self.old.parts (D.image disk.old) }

        // the reply, or why there is none
        ensures answers { IfOk result (AnswersCommand S.Source D.Disk command.now lines.old source.old lines.new source.new
            self.old disk.old self.new disk.new) }
        ensures stops { IfErr result (StopsCommand S.Source D.Disk command.now lines.old source.old lines.new source.new
            self.old disk.old self.new disk.new) }
        ensures due { 1 ≤ following command.now → lines.old.taken ≡ lines.old.limit → NeedsByte lines.old → result ≡ Err Stop.Limit }

        // what it takes and leaves
        ensures quiet { is_writing command.now ≡ false → ReadsDisk D.Disk disk.old disk.new }
        ensures lines { TakesFrom S.Source lines.old source.old lines.new source.new }
        ensures disk { UsesDisk D.Disk disk.old disk.new }
    {
        let outcome = self.carry_out(rt, command, lines, source, disk);
        self.forget_after(&outcome);
        match outcome {
            Ok(reply) => Ok(reply),
            Err(Halt::Refusal(refusal)) => Ok(Reply::Refused(refusal)),
            Err(Halt::Stop(stop)) => Err(stop),
        }
    }

    // Forgets the indexes of values where the file could not be written: what it holds is not known then.
    fn forget_after(&mut self, outcome: &Result<Reply, Halt>)
        ensures kept { (outcome.now ≡ Err (Halt.Stop Stop.Store) → ⊥) → self.new ≡ self.old }
    {
        if let Err(Halt::Stop(Stop::Store)) = outcome {
            self.indexes.clear();
        }
    }

    // Carries out the command.
    fn carry_out<R: Threads + Sync, S: Source, D: Disk>(
        &mut self,
        rt: &R,
        command: &Command,
        lines: &mut Lines,
        source: &mut S,
        disk: &mut D,
    ) -> Result<Reply, Halt>
        requires command { CountIsInRange command.now }
        requires image { HoldsImage self.old.parts (D.image disk.old) }

        // what it comes to
        ensures carries { CarriesOut S.Source D.Disk command.now lines.old source.old lines.new source.new
            self.old disk.old self.new disk.new result }
        ensures due { 1 ≤ following command.now → lines.old.taken ≡ lines.old.limit → NeedsByte lines.old → result ≡ Err (Halt.Stop Stop.Limit) }

        // what it takes and leaves
        ensures lines { TakesFrom S.Source lines.old source.old lines.new source.new }
        ensures disk { UsesDisk D.Disk disk.old disk.new }
    {
        match *command {
            Command::Create { l, k, function } => {
                self.create(disk, l, k, AskedFunction::Named(function))
            }
            Command::CreateSkewed { l, k, r } => self.create(disk, l, k, AskedFunction::Share(r)),
            Command::Upgrade => self.upgrade(disk),
            Command::Load { count } => self.add(rt, BatchCommand::Load, count, lines, source, disk),
            Command::Append { count } => self.add(
                rt,
                BatchCommand::Append,
                count,
                lines,
                source,
                disk,
            ),
            Command::At { t, cols } => self.at(rt, t, cols, disk),
            Command::Several { cols, times, count } => {
                self.several(rt, cols, times, count, disk)
            }
            Command::Materialise { node, cols } => self.materialise(rt, node, cols, disk),
            Command::Select {
                what: Selection::Chosen(expr),
                cols,
            } => self.choose(rt, expr, cols, disk),
            Command::Select {
                what: Selection::Added { from, until },
                cols,
            } => self.interval(from, until, cols, disk),
            Command::Index { key } => self.index_values(key, disk),
            Command::Certify { t, cols, count } => self.certify(t, cols, count, lines, source),
            Command::Verify => self.verify(rt, disk),
            Command::Workload { seed, count } => self.workload(rt, seed, count, disk),
            _ => self.answer(command),
        }
    }

    // Carries out a command that takes no line and touches no disk.
    fn answer(&mut self, command: &Command) -> Result<Reply, Halt>
        requires at_hand { is_at_hand command.now ≡ true }
        requires command { CountIsInRange command.now }
        ensures comes { (image : Option (List ℕ)) → ComesTo command.now [] self.old.parts image self.new.parts image result }
        ensures no_stop { (stop : Stop) → result ≡ Err (Halt.Stop stop) → ⊥ }
        ensures swept { IfOk result (λ reply. SweepsPool command.now self.old.pool self.new.pool reply) }
        ensures unswept { IfErr result (λ halt. SweepsNothing command.now) }
    {
        match *command {
            Command::Ask { handle, query } => self.ask(handle, query),
            Command::Release { handle } => self.release(handle),
            Command::Clean { cells } => Ok(self.clean(cells)),
            Command::CleanAll => Ok(self.clean_all()),
            Command::Pool => Ok(self.pool_size()),
            Command::Plan { t, cols } => self.plan(t, cols),
            Command::Tree => self.tree(),
            Command::Find { t, key, value } => self.find(t, key, value),
            _ => unreachable!(),
        }
    }

    // Makes the pool, unless there is one. An `Err` says that memory ran out; then nothing has changed.
    fn overlay(&mut self) -> Result<(), AllocError>
        ensures parts { self.new.parts ≡ self.old.parts }
        ensures made { OnOk result (is_some self.new.pool ≡ true) }
        ensures err { OnErr result (self.new ≡ self.old) }
    {
        // No graph of a handle changes.
        law_tie_is_kept();
        self.held.live.overlay(self.alloc)
    }

    // Whether there is an index.
    fn has_index(&self) -> bool
        ensures { result ≡ is_some self.now.parts.index }
    {
        self.held.live.history.index.is_some()
    }

    // How many events the history has.
    fn events_held(&self) -> u64
        ensures held { result ≡ events_held self.now.parts.index }
        ensures few { result ≤ EVENTS_MAX }
    {
        match &self.held.live.history.index {
            Some(index) => index.events_len(),
            None => 0,
        }
    }

    /// The first and the last instant of the history, where there is an event.
    pub fn span(&self) -> Option<(u64, u64)>
        ensures { result ≡ span_held self.now.parts.index }
    {
        match &self.held.live.history.index {
            Some(index) => span(index),
            None => None,
        }
    }
}
