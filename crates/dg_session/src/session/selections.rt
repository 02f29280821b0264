//! Elements that are selected from the history, each selection as a new handle.

ghost use Rattle.std.specs.Prelude.{◌≡◌, ◌+◌, ◌≤◌, ℕ, true, is_some, IfOk, IfSome, IsErrOf, IsTrue, List, OnErr, OnOk, [], ◌∷◌, Ok, Err, Option, length, map};
ghost use Rattle.std.specs.List.{All};
ghost use Rattle.dg_disk.specs.Calls.{Fails, ReadsDisk};
ghost use Rattle.dg_expr.specs.Chosen.{chosen};
ghost use Rattle.dg_expr.specs.Expressions.{instants_of, is_expression, words_of};
ghost use Rattle.dg_expr.specs.declared.expression.TheConstants.{EXPRESSION_WORDS_MAX};
ghost use Rattle.dg_graph.specs.Composition.{applied};
ghost use Rattle.dg_graph.specs.declared.element.Element.{Element};
ghost use Rattle.dg_graph.specs.Elements.{shown};
ghost use Rattle.dg_handles.specs.Handles.{with_messages};
ghost use Rattle.dg_machine.specs.Answer.{headed};
ghost use Rattle.dg_machine.specs.declared.limits.TheConstants.{HANDLE_MAX, LIVE_HANDLES_MAX};
ghost use Rattle.dg_machine.specs.MachineState.{MachineState, history_in};
ghost use Rattle.dg_machine.specs.Selections.{added_length};
ghost use Rattle.dg_machine.specs.declared.selection.Selection.TheVariants as selection;
ghost use Rattle.dg_machine.specs.declared.stands.Shown.TheVariants as kind;
ghost use Rattle.dg_retrieval.specs.Beginnings.{leads_in, led_to};
ghost use Rattle.dg_retrieval.specs.NamesThere.{NamesAreThere};
ghost use Rattle.dg_session.specs.Calls.{ReadsFile};
ghost use Rattle.dg_session.specs.Damage.{MeetsOver, Tells, interval_readings};
ghost use Rattle.dg_session.specs.Reads.{AddsFor, listed_by, with_new_handles};
ghost use Rattle.dg_session.specs.Session.{ComesTo, HoldsImage, StandsFor};
ghost use Rattle.dg_batch.specs.declared.stop.Stop.TheVariants as stop;

use super::Session;
use super::retrievals::first_of;
use crate::graph_sets::led_sets;
use crate::needs::Needs;
use dg_batch::{Halt, Stop};
use dg_delta::Delta;
use dg_disk::Disk;
use dg_expr::{Expr, law_chosen_elements_are_shown, select};
use dg_graph::Columns;
use dg_machine::{Command, Head, Refusal, Reply, Selection, Shown, Stands};
use dg_range::{law_images_have_added, lists_between, lists_bytes, read_added};
use dg_records::RecordFault;
use dg_retrieval::{Leads, Retrieved};
use dg_set::Set;
use std::alloc::{AllocError, Global};
use std::thread::Threads;

impl Session {
    // A new handle for the elements for which the expression holds, of those in the graph of one of its instants at least, in
    // these columns, by one tree to its distinct instants. No graph has a message, so none is read.
    pub(super) fn choose<R: Threads, D: Disk>(
        &mut self,
        rt: &R,
        expr: Expr,
        cols: Columns,
        disk: &mut D,
    ) -> Result<Reply, Halt>
        requires expression { IsTrue (is_expression (words_of expr)) }
        requires words { expr.count ≤ EXPRESSION_WORDS_MAX }
        requires image { HoldsImage self.old.parts (D.image disk.old) }

        // what it comes to
        ensures comes { ComesTo (Command.Select (selection.Chosen expr) cols) [] self.old.parts (D.image disk.old) self.new.parts (D.image disk.new) result }
        ensures no_stop { (stop : Stop) → result ≡ Err (Halt.Stop stop) → ⊥ }

        // why it is refused for a read
        ensures store_read { IsErrOf result (Halt.Refusal Refusal.StoreRead) → Fails D.Disk disk.old disk.new }

        // what it reads and leaves
        ensures file { ReadsFile D.Disk (Command.Select (selection.Chosen expr) cols) self.old.parts disk.old disk.new result }
        ensures disk { ReadsDisk D.Disk disk.old disk.new }
    {
        law_chosen_elements_are_shown();
        let instants = expr.instants();
        let times = first_of(&instants.times, instants.count);
        let needs = Needs {
            index: true,
            instants: times,
            handles: 1,
            ..Needs::NOTHING
        };
        if let Some(refusal) = self.refused(&needs, 0) {
            return Err(Halt::Refusal(refusal));
        }
        // No graph has a message.
        let read = Columns {
            transient: false,
            ..cols
        };
        let Retrieved { leads, weight, .. } = self.retrieve(rt, times, read, disk)?;
        let elements = self.chosen_of(&expr, &leads, read)?;
        let handle = self.held.handles.next() as u32;
        self.add_selected(Selection::Chosen(expr), cols, elements)?;
        Ok(Reply::headed(self.alloc, Head::Chosen { handle, weight }))
    }

    // What the expression chooses of the graphs to which the leads come, in these columns. The graphs are given back.
    fn chosen_of(&self, expr: &Expr, leads: &Leads, cols: Columns) -> Result<Set, AllocError>
        requires expression { IsTrue (is_expression (words_of expr.now)) }
        requires words { expr.now.count ≤ EXPRESSION_WORDS_MAX }
        requires leads { length (leads_in leads.now) ≡ length (instants_of (words_of expr.now)) }
        requires named { All (λ l. NamesAreThere (length self.now.parts.names) l.delta.plus) (leads_in leads.now) }
        ensures chosen { IfOk result (λ set. (graph : ℕ → List Element)
            → map (led_to self.now.parts.graph (listed_by self.now.parts) cols) (leads_in leads.now) ≡ map graph (instants_of (words_of expr.now))
            → set ≡ chosen (words_of expr.now) graph) }
        ensures named { IfOk result (NamesAreThere (length self.now.parts.names)) }
    {
        let sets = led_sets(self.alloc, &self.held, leads, cols)?;
        select(self.alloc, expr, &sets)
    }

    // A new handle for what the events from the instant `from` on and before `until` add, with their messages, in these
    // columns. Of the lists that may have such events the asked columns are read, each once; the recent events are in memory.
    pub(super) fn interval<D: Disk>(
        &mut self,
        from: u64,
        until: u64,
        cols: Columns,
        disk: &mut D,
    ) -> Result<Reply, Halt>
        requires image { HoldsImage self.old.parts (D.image disk.old) }

        // what it comes to
        ensures comes { ComesTo (Command.Select (selection.Added from until) cols) [] self.old.parts (D.image disk.old) self.new.parts (D.image disk.new) result }
        ensures no_stop { (stop : Stop) → result ≡ Err (Halt.Stop stop) → ⊥ }

        // why it is refused for a read
        ensures store_read { IsErrOf result (Halt.Refusal Refusal.StoreRead) → Fails D.Disk disk.old disk.new }

        // what it reads and leaves
        ensures file { ReadsFile D.Disk (Command.Select (selection.Added from until) cols) self.old.parts disk.old disk.new result }
        ensures disk { ReadsDisk D.Disk disk.old disk.new }
    {
        let instants = [from];
        let needs = Needs {
            index: true,
            instants: &instants,
            until: Some(until),
            handles: 1,
            ..Needs::NOTHING
        };
        if let Some(refusal) = self.refused(&needs, 0) {
            return Err(Halt::Refusal(refusal));
        }
        let weight = self.interval_bytes(from, until, cols);
        let elements = self.read_interval(from, until, cols, disk)?;
        let handle = self.held.handles.next() as u32;
        self.add_selected(Selection::Added { from, until }, cols, elements)?;
        Ok(Reply::headed(self.alloc, Head::Added { handle, weight }))
    }

    // The bytes of the asked columns of the lists that may have an event between the instants.
    fn interval_bytes(&self, from: u64, until: u64, cols: Columns) -> u64
        requires { is_some self.now.parts.index ≡ true }
        ensures { (image : List ℕ) (m : MachineState) → StandsFor self.now.parts image m → result ≡ added_length (history_in m.index) from until cols }
    {
        let Some(index) = &self.held.live.history.index else {
            unreachable!()
        };
        let (low, high) = lists_between(index, from, until);
        lists_bytes(index, low, high, cols)
    }

    // What the events between the instants add, with their messages, in these columns.
    fn read_interval<D: Disk>(
        &self,
        from: u64,
        until: u64,
        cols: Columns,
        disk: &mut D,
    ) -> Result<Set, RecordFault>
        requires there { is_some self.now.parts.index ≡ true }
        requires image { HoldsImage self.now.parts (D.image disk.old) }

        // what is added, of which the second holds over an image that stands for a state
        ensures named { IfOk result (NamesAreThere (length self.now.parts.names)) }
        ensures over { IfSome (D.image disk.old) (λ image. (m : MachineState) → StandsFor self.now.parts image m
            → AddsFor m from until cols (D.taken disk.old) (D.taken disk.new) result) }

        // why nothing is
        ensures cause { IsErrOf result RecordFault.Disk → Fails D.Disk disk.old disk.new }
        ensures damage { Tells (MeetsOver (interval_readings from until cols) self.now.parts (D.image disk.old)) result }

        // what it leaves
        ensures disk { ReadsDisk D.Disk disk.old disk.new }
    {
        law_images_have_added();
        let Some(index) = &self.held.live.history.index else {
            unreachable!()
        };
        read_added(
            self.alloc,
            index,
            disk,
            self.held.live.history.names.len(),
            &self.held.live.history.recent,
            from,
            until,
            cols,
        )
    }

    // A new handle for these elements, with what is selected by them and in which columns.
    fn add_selected(
        &mut self,
        what: Selection,
        cols: Columns,
        elements: Set,
    ) -> Result<(), AllocError>
        requires room { length self.old.parts.table + 1 ≤ LIVE_HANDLES_MAX }
        requires numbers { self.old.parts.next + 1 ≤ HANDLE_MAX + 1 }
        requires named { NamesAreThere (length self.old.parts.names) elements }
        ensures added { OnOk result (self.new.parts ≡ with_new_handles self.old.parts (record { what = kind.Selected what; cols = cols } ∷ []) (shown elements (with_messages cols) ∷ [])) }
        ensures err { OnErr result (self.new.parts ≡ self.old.parts) }
    {
        let delta = delta_to(self.alloc, elements);
        let stands = Stands {
            what: Shown::Selected(what),
            cols,
        };
        self.add_set(stands, &delta)
    }
}

// The delta that leads from nothing to the elements.
fn delta_to(alloc: Global, elements: Set) -> Delta
    ensures leads { applied result [] ≡ elements }
    ensures puts { result.plus ≡ elements }
{
    // Its clause says that the elements rise.
    let _ = elements.items();
    Delta::of(Set::new(alloc), elements)
}
