//! Graphs as of instants, each as a new handle.

ghost use Rattle.std.specs.Prelude.{◌≡◌, ◌+◌, ◌<◌, ◌≤◌, IfSome, IsErrOf, OnErr, OnOk, [], Ok, Option, None, Some, not, length, map, take, IfOk};
ghost use Rattle.std.specs.List.{All, sum};
ghost use Rattle.dg_disk.specs.Calls.{Fails, ReadsDisk};
ghost use Rattle.dg_handles.specs.Handles.{BeginsOn, overlays_on};
ghost use Rattle.dg_machine.specs.declared.command.TheConstants.{TIMES_MAX};
ghost use Rattle.dg_machine.specs.declared.limits.TheConstants.{HANDLE_MAX, LIVE_HANDLES_MAX};
ghost use Rattle.dg_machine.specs.Answer.{headed};
ghost use Rattle.dg_machine.specs.MachineState.{MachineState};
ghost use Rattle.dg_retrieval.specs.Beginnings.{leads_in, led_to};
ghost use Rattle.dg_retrieval.specs.NamesThere.{NamesAreThere};
ghost use Rattle.dg_session.specs.Calls.{ReadsFile};
ghost use Rattle.dg_session.specs.Damage.{MeetsOver, Tells, graph_readings};
ghost use Rattle.dg_session.specs.Reads.{HasRetrieved, RetrievesFor, bases_of, listed_by, with_new_handles};
ghost use Rattle.dg_session.specs.Session.{ComesTo, HoldsImage, StandsFor, refused_by, retrieval_needs};
ghost use Rattle.dg_batch.specs.declared.stop.Stop.TheVariants as stop;

use super::Session;
use crate::needs::Needs;
use crate::retrieval::{handle_lines, leads_at};
use dg_batch::{Halt, Stop};
use dg_disk::Disk;
use dg_graph::Columns;
use dg_heard::law_heard_bytes_are_the_historys;
use dg_machine::{BodyLines, Command, Head, Refusal, Reply, TIMES_MAX};
use dg_records::RecordFault;
use dg_retrieval::{Leads, Retrieved};
use std::alloc::AllocError;
use std::thread::Threads;

impl Session {
    // What leads to the graphs as of the instants in these columns, by one tree, and to their messages, where these are
    // asked for.
    pub(super) fn retrieve<R: Threads, D: Disk>(
        &mut self,
        rt: &R,
        times: &[u64],
        cols: Columns,
        disk: &mut D,
    ) -> Result<Retrieved, RecordFault>
        requires few { length times.now ≤ TIMES_MAX }
        requires free { refused_by self.old.parts 0 (retrieval_needs times.now 0) ≡ None }
        requires image { HoldsImage self.old.parts (D.image disk.old) }

        // what is retrieved, of which the second holds over an image that stands for a state
        ensures done { IfOk result (HasRetrieved self.old.parts times.now cols) }
        ensures over { IfSome (D.image disk.old) (λ image. (m : MachineState) → StandsFor self.old.parts image m
            → RetrievesFor m self.old.parts times.now cols (D.taken disk.old) (D.taken disk.new) result) }

        // why nothing is
        ensures cause { IsErrOf result RecordFault.Disk → Fails D.Disk disk.old disk.new }
        ensures damage { Tells (MeetsOver (graph_readings times.now cols) self.old.parts (D.image disk.old)) result }

        // what it leaves
        ensures same { self.new ≡ self.old }
        ensures disk { ReadsDisk D.Disk disk.old disk.new }
    {
        law_heard_bytes_are_the_historys();
        let Some(index) = &mut self.held.live.history.index else {
            unreachable!()
        };
        // Its clause says what the handles hold that can serve.
        self.held.handles.facts();
        self.planner
            .keep(self.alloc, index, &self.held.handles, cols)?;
        leads_at(
            rt,
            self.alloc,
            index,
            disk,
            self.held.live.history.names.len(),
            &self.held.live.history.recent,
            self.planner.planner(cols),
            times,
            cols,
        )
    }

    // A new handle for the graph to which each lead comes, as of these instants in these columns.
    pub(super) fn add_handles(
        &mut self,
        cols: Columns,
        times: &[u64],
        leads: &Leads,
    ) -> Result<(), AllocError>
        requires bases { All (BeginsOn self.old.parts.table cols) (leads_in leads.now) }
        requires room { length self.old.parts.table + length times.now ≤ LIVE_HANDLES_MAX }
        requires numbers { self.old.parts.next + length times.now ≤ HANDLE_MAX + 1 }
        requires leads { length (leads_in leads.now) ≡ length times.now }
        requires named { All (λ l. NamesAreThere (length self.old.parts.names) l.delta.plus) (leads_in leads.now) }
        ensures added { OnOk result (self.new.parts ≡ with_new_handles self.old.parts (overlays_on cols times.now (bases_of (leads_in leads.now))) (map (led_to self.old.parts.graph (listed_by self.old.parts) cols) (leads_in leads.now))) }
        ensures err { OnErr result (self.new.parts ≡ self.old.parts) }
    {
        self.overlay()?;
        let Some(pool) = &mut self.held.live.pool else {
            unreachable!()
        };
        self.held.handles.add(pool, cols, times, leads)
    }

    // A new handle for the graph as of `t` in these columns.
    pub(super) fn at<R: Threads, D: Disk>(
        &mut self,
        rt: &R,
        t: u64,
        cols: Columns,
        disk: &mut D,
    ) -> Result<Reply, Halt>
        requires image { HoldsImage self.old.parts (D.image disk.old) }

        // what it comes to
        ensures comes { ComesTo (Command.At t cols) [] self.old.parts (D.image disk.old) self.new.parts (D.image disk.new) result }
        ensures no_stop { (stop : Stop) → result ≡ Err (Halt.Stop stop) → ⊥ }

        // why it is refused for a read
        ensures store_read { IsErrOf result (Halt.Refusal Refusal.StoreRead) → Fails D.Disk disk.old disk.new }

        // what it reads and leaves
        ensures file { ReadsFile D.Disk (Command.At t cols) self.old.parts disk.old disk.new result }
        ensures disk { ReadsDisk D.Disk disk.old disk.new }
    {
        let times = [t];
        let needs = Needs {
            index: true,
            instants: &times,
            handles: 1,
            ..Needs::NOTHING
        };
        if let Some(refusal) = self.refused(&needs, 0) {
            return Err(Halt::Refusal(refusal));
        }
        let Retrieved { leads, weight, .. } = self.retrieve(rt, &times, cols, disk)?;
        let handle = self.held.handles.next() as u32;
        self.add_handles(cols, &times, &leads)?;
        Ok(Reply::headed(self.alloc, Head::At { handle, weight }))
    }

    // A new handle for the graph as of each of the first `count` instants in these columns, by one tree.
    pub(super) fn several<R: Threads, D: Disk>(
        &mut self,
        rt: &R,
        cols: Columns,
        times: [u64; TIMES_MAX],
        count: u8,
        disk: &mut D,
    ) -> Result<Reply, Halt>
        requires some { 1 ≤ count }
        requires few { count ≤ TIMES_MAX }
        requires image { HoldsImage self.old.parts (D.image disk.old) }

        // what it comes to
        ensures comes { ComesTo (Command.Several cols times count) [] self.old.parts (D.image disk.old) self.new.parts (D.image disk.new) result }
        ensures no_stop { (stop : Stop) → result ≡ Err (Halt.Stop stop) → ⊥ }

        // why it is refused for a read
        ensures store_read { IsErrOf result (Halt.Refusal Refusal.StoreRead) → Fails D.Disk disk.old disk.new }

        // what it reads and leaves
        ensures file { ReadsFile D.Disk (Command.Several cols times count) self.old.parts disk.old disk.new result }
        ensures disk { ReadsDisk D.Disk disk.old disk.new }
    {
        let asked = first_of(&times, count);
        let needs = Needs {
            index: true,
            instants: asked,
            handles: count,
            ..Needs::NOTHING
        };
        if let Some(refusal) = self.refused(&needs, 0) {
            return Err(Halt::Refusal(refusal));
        }
        let retrieved = self.retrieve(rt, asked, cols, disk)?;
        let next = self.held.handles.next();
        let lines = handle_lines(self.alloc, next, asked, &retrieved.singles)?;
        self.add_handles(cols, asked, &retrieved.leads)?;
        Ok(Reply::Answered {
            head: Head::Several {
                weight: retrieved.weight,
                sum: retrieved.sum,
            },
            body: BodyLines::from_vec(lines),
        })
    }
}

// The first `count` of the instants.
pub(super) fn first_of<'a>(times: &'a [u64], count: u8) -> &'a [u64]
    requires { count ≤ length times.now }
    ensures times { result.now ≡ take count times.entry.now }
    ensures count { length result.now ≡ count }
{
    &times[..usize::from(count)]
}
