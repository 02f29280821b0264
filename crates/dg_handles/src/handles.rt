//! The live handles, over the pool that has their graphs.

ghost use Rattle.std.specs.Prelude.{◌≡◌, ℕ, ◌+◌, ◌≤◌, [], ◌∷◌, ◌++◌, false, None, IfOk, OnErr, OnOk, Some, is_some, length, map};
ghost use Rattle.std.specs.List.{All};
ghost use Rattle.std.specs.Option.{option_map};
ghost use Rattle.dg_graph.specs.Composition.{applied};
ghost use Rattle.dg_graph.specs.Elements.{shown};
ghost use Rattle.dg_handles.specs.Attached.{AreAttached, graph_begun, graph_led, resting};
ghost use Rattle.dg_handles.specs.Handles.{BeginsOn, CanBegin, HoldsNode, IsTied, graph_among, slot_graphs, graphs_without, held_by, numbered, overlays_on, slot_of, with_messages};
ghost use Rattle.dg_machine.specs.MachineState.{dependent_on, overlay_on, stands_at, without_handle};
ghost use Rattle.dg_machine.specs.Planning.{bases_in};
ghost use Rattle.dg_machine.specs.declared.limits.TheConstants.{HANDLE_MAX, LIVE_HANDLES_MAX};
ghost use Rattle.dg_planner.specs.Bases.{base_of as node_of};
ghost use Rattle.dg_pool.specs.Changes.{numbers_of};
ghost use Rattle.dg_pool.specs.Graphs.{PoolState, SameGraphs, graph_now, slot_graph};
ghost use Rattle.dg_retrieval.specs.Beginnings.{base_handle, leads_in, led_to};

use crate::attach::{attach, attach_unchanged, detach, detach_all};
use crate::entries::{Entry, bases, dependent, enter, index_of_handle, overlays};
use crate::write::write_all;
use dg_delta::Delta;
use dg_graph::Columns;
use dg_machine::{LIVE_HANDLES_MAX, Stands};
use dg_pool::{Base, Pool, Slot};
use dg_retrieval::{Beginning, Leads};
use dg_view::View;
use std::alloc::{AllocError, Global};
use std::marker::Model;

/// The live handles over a pool, the oldest first, and the number of the next one. Each call that takes the pool asks
/// that it is tied to the handles, and leaves it so.
#[derive(Drop)]
pub struct Handles {
    entries: Vec<Entry>,
    next: u64,
    alloc: Global,
}

impl Model for Handles {
    ghost use Rattle.std.specs.Prelude.{◌+◌, ◌≤◌, map, vec_capacity, vec_len};
    ghost use Rattle.dg_handles.specs.Handles.{HandlesState, RiseWithin};
    ghost use Rattle.dg_machine.specs.declared.limits.TheConstants.{HANDLE_MAX, LIVE_HANDLES_MAX};

    ghost Value = { HandlesState };

    ghost view = { λ h. record {
      table = map (λ e. (e.handle, e.stands)) h.entries.items;
      slots = map (λ e. e.slot.0) h.entries.items;
      next = h.next;
    } };

    ghost invariant = { λ h. (vec_len h.entries ≤ LIVE_HANDLES_MAX) × (LIVE_HANDLES_MAX ≤ vec_capacity h.entries) × (h.next ≤ HANDLE_MAX + 1)
        × RiseWithin 0 h.next (map (λ e. e.handle) h.entries.items) };
}

// The columns, and the messages with them.
fn with_messages(cols: Columns) -> Columns
    ensures { result ≡ with_messages cols }
{
    Columns {
        transient: true,
        ..cols
    }
}

impl Handles {
    /// No handle; the first one is to have this number. There is room for every handle that may live.
    pub fn new(alloc: Global, first: u32) -> Result<Handles, AllocError>
        ensures table { IfOk result (λ h. h.table ≡ []) }
        ensures slots { IfOk result (λ h. h.slots ≡ []) }
        ensures next { IfOk result (λ h. h.next ≡ first) }
        ensures tied { IfOk result (λ h. (p : PoolState) → ((s : ℕ) → slot_graph p s ≡ None) → IsTied p h) }
    {
        Ok(Handles {
            entries: Vec::with_capacity(alloc, LIVE_HANDLES_MAX)?,
            next: u64::from(first),
            alloc,
        })
    }

    /// How many handles live.
    pub fn live(&self) -> u32
        ensures live { result ≡ length self.now.table }
        ensures few { result ≤ LIVE_HANDLES_MAX }
    {
        self.entries.len() as u32
    }

    /// The number of the next handle.
    pub fn next(&self) -> u64
        ensures next { result ≡ self.now.next }
        ensures most { result ≤ HANDLE_MAX + 1 }
    {
        self.next
    }

    /// What the handle stands for, where it is live.
    pub fn stands(&self, handle: u32) -> Option<Stands>
        ensures { result ≡ stands_at handle self.now.table }
    {
        let entry_index = index_of_handle(&self.entries, handle)?;
        Some(self.entries[entry_index].stands)
    }

    /// The first live handle that stands for an overlay on this one. Takes no memory.
    pub fn dependent(&self, handle: u32) -> Option<u32>
        ensures { result ≡ dependent_on handle self.now.table }
    {
        dependent(&self.entries, handle)
    }

    /// The handles whose nodes can serve a retrieval in these columns, the oldest first. An `Err` says that memory ran
    /// out.
    pub fn bases(&self, alloc: Global, cols: Columns) -> Result<Vec<dg_planner::Base>, AllocError>
        ensures { IfOk result (λ v. map node_of v.items ≡ bases_in cols self.now.table) }
    {
        bases(alloc, &self.entries, cols)
    }

    /// What the handles hold that can serve, in any columns. Does nothing.
    pub fn facts(&self)
        ensures held { (cols : Columns) → All (HoldsNode self.now.table cols) (bases_in cols self.now.table) }
    {
        let _ = &self.entries;
    }

    // The slot of a live handle.
    fn slot(&self, handle: u32) -> Option<Slot>
        ensures { option_map (λ s. s.0) result ≡ slot_of handle self.now.table self.now.slots }
    {
        let entry_index = index_of_handle(&self.entries, handle)?;
        Some(self.entries[entry_index].slot)
    }

    // What a graph rests on in the pool that begins so. Nothing for a handle that is not live.
    fn base_under(&self, begins: Beginning) -> Base
        ensures { result ≡ resting self.now begins }
    {
        match begins {
            Beginning::Nothing => Base::Nothing,
            Beginning::Now => Base::Now,
            Beginning::Base(handle) => match self.slot(handle) {
                Some(slot) => Base::Slot(slot),
                None => Base::Nothing,
            },
        }
    }

    // A slot for each graph that begins so, cut to these columns. An `Err` says that memory ran out; then all graphs
    // are as before.
    fn attach_all(
        &self,
        pool: &mut Pool,
        cols: Columns,
        begins: &[Beginning],
    ) -> Result<Vec<Slot>, AllocError>
        requires tied { IsTied pool.old self.now }
        requires room { length self.now.table + length begins.now ≤ LIVE_HANDLES_MAX }
        requires bases { All (CanBegin self.now.table cols) begins.now }
        ensures slots { IfOk result (λ slots. AreAttached pool.old pool.new (numbers_of slots.items) (map (graph_begun self.now pool.old cols) begins.now)) }
        ensures err { OnErr result (SameGraphs pool.old pool.new) }
    {
        let mut slots = Vec::with_capacity(self.alloc, begins.len())?;
        for begun in begins {
            match attach_unchanged(self.alloc, pool, self.base_under(*begun), cols) {
                Ok(slot) => slots.push_reserved(slot),
                Err(error) => {
                    detach_all(pool, &slots);
                    return Err(error);
                }
            }
        }
        Ok(slots)
    }

    // A slot for the graph to which each lead comes, in these columns. An `Err` says that memory ran out; then all
    // graphs are as before.
    fn attach_leads(
        &self,
        pool: &mut Pool,
        cols: Columns,
        leads: &Leads,
    ) -> Result<Vec<Slot>, AllocError>
        requires tied { IsTied pool.old self.now }
        requires room { length self.now.table + length (leads_in leads.now) ≤ LIVE_HANDLES_MAX }
        requires bases { All (BeginsOn self.now.table cols) (leads_in leads.now) }
        ensures slots { IfOk result (λ slots. AreAttached pool.old pool.new (numbers_of slots.items) (map (graph_led self.now pool.old cols) (leads_in leads.now))) }
        ensures err { OnErr result (SameGraphs pool.old pool.new) }
    {
        pool.facts();
        let attached = self.attach_all(pool, cols, &leads.begins)?;
        match write_all(self.alloc, pool, &attached, &leads.writings) {
            Ok(()) => Ok(attached),
            Err(error) => {
                detach_all(pool, &attached);
                Err(error)
            }
        }
    }

    // A handle for each of these, with the slot beside it. There is room for them.
    fn enter(&mut self, stands: &[Stands], slots: &[Slot])
        requires slots { length slots.now ≡ length stands.now }
        requires room { length self.old.table + length stands.now ≤ LIVE_HANDLES_MAX }
        requires numbers { self.old.next + length stands.now ≤ HANDLE_MAX + 1 }
        ensures table { self.new.table ≡ self.old.table ++ numbered self.old.next stands.now }
        ensures slots { self.new.slots ≡ self.old.slots ++ numbers_of slots.now }
        ensures next { self.new.next ≡ self.old.next + length stands.now }
    {
        enter(&mut self.entries, self.next, stands, slots);
        self.next += stands.len() as u64;
    }

    /// A handle for the graph to which each lead comes, as of these instants in these columns: each graph gets a slot
    /// of the pool, which rests on what the lead begins with, and each delta is written once for all of them. An `Err`
    /// says that memory ran out; then all handles and all graphs are as before.
    pub fn add(
        &mut self,
        pool: &mut Pool,
        cols: Columns,
        times: &[u64],
        leads: &Leads,
    ) -> Result<(), AllocError>
        requires tied { IsTied pool.old self.old }
        requires room { length self.old.table + length times.now ≤ LIVE_HANDLES_MAX }
        requires numbers { self.old.next + length times.now ≤ HANDLE_MAX + 1 }
        requires leads { length (leads_in leads.now) ≡ length times.now }
        requires bases { All (BeginsOn self.old.table cols) (leads_in leads.now) }

        // the handles and their graphs
        ensures table { OnOk result (self.new.table ≡ self.old.table ++ numbered self.old.next (overlays_on cols times.now (map (λ l. base_handle l.begins) (leads_in leads.now)))) }
        ensures next { OnOk result (self.new.next ≡ self.old.next + length times.now) }
        ensures graphs { OnOk result (slot_graphs pool.new self.new.slots
            ≡ slot_graphs pool.old self.old.slots ++ map (led_to (graph_now pool.old) (held_by self.old.table (slot_graphs pool.old self.old.slots)) cols) (leads_in leads.now)) }
        ensures rests { OnOk result (map (slot_graph pool.new) self.new.slots
            ≡ map (slot_graph pool.old) self.old.slots ++ map (λ l. Some (graph_led self.old pool.old cols l)) (leads_in leads.now)) }
        ensures tied { IsTied pool.new self.new }
        ensures now { graph_now pool.new ≡ graph_now pool.old }

        // what is left where there is none
        ensures err { OnErr result (self.new ≡ self.old) }
        ensures graphs_err { OnErr result (SameGraphs pool.old pool.new) }
    {
        let stands = overlays(self.alloc, cols, times, &leads.begins)?;
        let slots = self.attach_leads(pool, cols, leads)?;
        self.enter(&stands, &slots);
        Ok(())
    }

    /// A handle for a set, of a node or selected, to which the delta leads from the empty graph. The set gets a slot of the
    /// pool, which rests on nothing and has the messages with its columns. An `Err` says that memory ran out; then all
    /// handles and all graphs are as before.
    pub fn add_set(
        &mut self,
        pool: &mut Pool,
        stands: Stands,
        delta: &Delta,
    ) -> Result<(), AllocError>
        requires tied { IsTied pool.old self.old }
        requires room { length self.old.table + 1 ≤ LIVE_HANDLES_MAX }
        requires numbers { self.old.next + 1 ≤ HANDLE_MAX + 1 }
        requires alone { overlay_on stands.what ≡ None }

        // the handle and its graph
        ensures table { OnOk result (self.new.table ≡ self.old.table ++ (self.old.next, stands) ∷ []) }
        ensures next { OnOk result (self.new.next ≡ self.old.next + 1) }
        ensures graphs { OnOk result (slot_graphs pool.new self.new.slots
            ≡ slot_graphs pool.old self.old.slots ++ shown (applied delta.now []) (with_messages stands.cols) ∷ []) }
        ensures tied { IsTied pool.new self.new }
        ensures now { graph_now pool.new ≡ graph_now pool.old }

        // what is left where there is none
        ensures err { OnErr result (self.new ≡ self.old) }
        ensures graphs_err { OnErr result (SameGraphs pool.old pool.new) }
    {
        let slot = attach(pool, Base::Nothing, delta, with_messages(stands.cols))?;
        self.enter(&[stands], &[slot]);
        Ok(())
    }

    /// The graph of a handle, where it is live.
    pub fn view<'a>(&self, pool: &'a Pool, handle: u32) -> Option<View<'a>>
        requires tied { IsTied pool.now self.now }
        ensures graph { result ≡ graph_among handle self.now.table (slot_graphs pool.now self.now.slots) }
        ensures there { is_some result ≡ is_some (stands_at handle self.now.table) }
    {
        let entry_index = index_of_handle(&self.entries, handle)?;
        Some(View::of(pool, self.entries[entry_index].slot))
    }

    /// Gives the handle up, on which no live one rests, and ends its slot. Answers whether it was live; otherwise
    /// nothing changes. Takes no memory.
    pub fn release(&mut self, pool: &mut Pool, handle: u32) -> bool
        requires tied { IsTied pool.old self.old }
        requires unused { dependent_on handle self.old.table ≡ None }
        ensures there { result ≡ is_some (stands_at handle self.old.table) }
        ensures same { result ≡ false → (self.new ≡ self.old) × (pool.new ≡ pool.old) }
        ensures table { self.new.table ≡ without_handle handle self.old.table }
        ensures next { self.new.next ≡ self.old.next }
        ensures graphs { slot_graphs pool.new self.new.slots ≡ graphs_without handle self.old.table (slot_graphs pool.old self.old.slots) }
        ensures tied { IsTied pool.new self.new }
        ensures now { graph_now pool.new ≡ graph_now pool.old }
    {
        let Some(entry_index) = index_of_handle(&self.entries, handle) else {
            return false;
        };
        let entry = self.entries.remove(entry_index);
        detach(pool, entry.slot);
        true
    }

    /// Forgets all handles. The number of the next one stays. Takes no memory.
    pub fn clear(&mut self)
        ensures table { self.new.table ≡ [] }
        ensures slots { self.new.slots ≡ [] }
        ensures next { self.new.next ≡ self.old.next }
        ensures tied { (p : PoolState) → ((s : ℕ) → slot_graph p s ≡ None) → IsTied p self.new }
    {
        self.entries.clear();
    }
}
