//! What is asked of a session whose index is a part of a history, or is to be cut into parts: its parameters, its events, and
//! what leads to the graph as of an instant.

ghost use Rattle.std.specs.Prelude.{◌≡◌, ◌∷◌, ◌≤◌, [], IfErr, IfOk, IfSome, IsErrOf, None, Option, Some, is_some, length, map, true};
ghost use Rattle.std.specs.List.{All};
ghost use Rattle.std.specs.Option.{option_map};
ghost use Rattle.dg_disk.specs.Calls.{Fails, ReadsDisk};
ghost use Rattle.dg_gather.specs.Gathered.{shown_by};
ghost use Rattle.dg_graph.specs.declared.event.Event.{Event};
ghost use Rattle.dg_graph.specs.declared.limits.TheConstants.{TIME_MAX};
ghost use Rattle.dg_history.specs.declared.limits.TheConstants.{EVENTS_MAX};
ghost use Rattle.dg_history.specs.History.{events_of};
ghost use Rattle.dg_index.specs.OpenedIndex.{Opening};
ghost use Rattle.dg_machine.specs.MachineState.{MachineState, history_in};
ghost use Rattle.dg_records.specs.Calls.{ReadsRecords};
ghost use Rattle.dg_records.specs.EventNames.{EventNamesAreThere};
ghost use Rattle.dg_retrieval.specs.Beginnings.{leads_in, led_to};
ghost use Rattle.dg_retrieval.specs.NamesThere.{NamesAreThere};
ghost use Rattle.dg_retrieval.specs.Retrieval.{IsNoDamage};
ghost use Rattle.dg_session.specs.Damage.{MeetsOver, Tells, graph_readings};
ghost use Rattle.dg_session.specs.Gathering.{GathersFor};
ghost use Rattle.dg_session.specs.Reads.{listed_by};
ghost use Rattle.dg_session.specs.Session.{HoldsImage, StandsFor, refused_by, retrieval_needs};
ghost use Rattle.dg_sound.specs.OwnEvents.{are_completions, own_events};
ghost use Rattle.dg_verify.specs.Faults.{IsFirstWrong};
ghost use Rattle.dg_verify.specs.Verification.{opened_with};

use super::Session;
use crate::graph_sets::begun_set;
use dg_disk::Disk;
use dg_gather::Gathered;
use dg_graph::{Columns, Event};
use dg_history::Params;
use dg_records::RecordFault;
use dg_retrieval::{Leads, Retrieved};
use dg_sound_files::law_standing_files_are_sound;
use dg_verify::read_own_events;
use std::alloc::AllocError;
use std::thread::Threads;

impl Session {
    /// The parameters of the index, where there is one.
    pub fn params(&self) -> Option<Params>
        ensures { result ≡ option_map (λ (o : Opening). o.params) self.now.parts.index }
    {
        match &self.held.live.history.index {
            Some(index) => Some(index.params()),
            None => None,
        }
    }

    /// The events of the history, read from the lists and the recent pieces of the file, each once. Whatever the file is,
    /// each is what some change comes to after those before it, none is earlier, and its names are there.
    ///
    /// `RecordFault::Damaged` with the first record of events that is not right, in the order of keys, and its first such
    /// column, which never comes over a file that stands for a history; `RecordFault::Disk` where the disk failed,
    /// `RecordFault::Memory` for want of memory.
    pub fn history<D: Disk>(&self, disk: &mut D) -> Result<Vec<Event>, RecordFault>
        requires there { is_some self.now.parts.index ≡ true }
        requires image { HoldsImage self.now.parts (D.image disk.old) }

        // the events, of which the first clause holds over an image that stands for a state
        ensures events { IfSome (D.image disk.old) (λ image. (m : MachineState) → StandsFor self.now.parts image m
            → IfOk result (λ events. events.items ≡ events_of (history_in m.index))) }
        ensures follow { IfOk result (λ events. are_completions self.now.parts.names [] 0 events.items ≡ true) }
        ensures named { IfOk result (λ events. EventNamesAreThere (length self.now.parts.names) events.items) }
        ensures timed { IfOk result (λ events. All (λ (e : Event). e.time ≤ TIME_MAX) events.items) }
        ensures few { IfOk result (λ events. length events.items ≤ EVENTS_MAX) }

        // why there are none
        ensures never { IfSome (D.image disk.old) (λ image. (m : MachineState) → StandsFor self.now.parts image m → IfErr result IsNoDamage) }
        ensures damage { IfErr result (λ fault. (o : Opening) → self.now.parts.index ≡ Some o → IfSome (D.image disk.old)
            (λ image. IsFirstWrong fault (own_events image (opened_with o self.now.parts.names)))) }

        // what it leaves, and why the disk is blamed
        ensures reads { ReadsRecords D.Disk disk.old disk.new result }
    {
        law_standing_files_are_sound();
        let Some(index) = &self.held.live.history.index else {
            unreachable!()
        };
        index.facts();
        read_own_events(self.alloc, index, disk, &self.held.live.history.names)
    }

    /// What leads to the graph as of the instant `t` in these columns, with the set with which it begins. No graph is made.
    ///
    /// `RecordFault::Damaged` with the first column that is in no spelling, of those that the plan of the instant enters, and
    /// then of the messages that are asked for; `RecordFault::Disk` where the disk failed, `RecordFault::Memory` for want of
    /// memory.
    pub fn gather<R: Threads, D: Disk>(
        &mut self,
        rt: &R,
        t: u64,
        cols: Columns,
        disk: &mut D,
    ) -> Result<Gathered, RecordFault>
        requires free { refused_by self.old.parts 0 (retrieval_needs (t ∷ []) 0) ≡ None }
        requires image { HoldsImage self.old.parts (D.image disk.old) }

        // what is gathered, of which the first clause holds over an image that stands for a state
        ensures over { IfSome (D.image disk.old) (λ image. (m : MachineState) → StandsFor self.old.parts image m
            → GathersFor m t cols (D.taken disk.old) (D.taken disk.new) result) }
        ensures named { IfOk result (λ g. NamesAreThere (length self.old.parts.names) (shown_by g)) }

        // why nothing is
        ensures cause { IsErrOf result RecordFault.Disk → Fails D.Disk disk.old disk.new }
        ensures damage { Tells (MeetsOver (graph_readings (t ∷ []) cols) self.old.parts (D.image disk.old)) result }

        // what it leaves
        ensures same { self.new ≡ self.old }
        ensures disk { ReadsDisk D.Disk disk.old disk.new }
    {
        let times = [t];
        let Retrieved { leads, weight, .. } = self.retrieve(rt, &times, cols, disk)?;
        Ok(self.gathered(leads, cols, weight)?)
    }

    // What leads to the one graph to which the lead comes, in these columns, with the bytes that were read for it.
    fn gathered(&self, leads: Leads, cols: Columns, weight: u64) -> Result<Gathered, AllocError>
        requires one { length (leads_in leads) ≡ 1 }
        requires named { All (λ l. NamesAreThere (length self.now.parts.names) l.delta.plus) (leads_in leads) }
        ensures shown { IfOk result (λ g. map (led_to self.now.parts.graph (listed_by self.now.parts) cols) (leads_in leads) ≡ shown_by g ∷ []) }
        ensures weight { IfOk result (λ g. g.weight ≡ weight) }
        ensures named { IfOk result (λ g. NamesAreThere (length self.now.parts.names) (shown_by g)) }
    {
        let Leads { begins, writings } = leads;
        let base = begun_set(self.alloc, &self.held, begins[0])?;
        Ok(Gathered {
            base,
            writings,
            cols,
            weight,
        })
    }
}
