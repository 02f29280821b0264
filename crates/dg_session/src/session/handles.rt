//! Handles of sets, handles that end, and the pool in which they leave cells.

ghost use Rattle.std.specs.Prelude.{◌≡◌, ℕ, ◌+◌, ◌<◌, ◌≤◌, List, [], ◌∷◌, None, Ok, Option, Some, true, false, IfSome, MatchOption, OnErr, OnOk, length};
ghost use Rattle.dg_append.specs.Overlays.{IsOverlayOf, SameOverlay, pool_in, pool_of};
ghost use Rattle.dg_ask.specs.HeldIndex.{HasNodeOf};
ghost use Rattle.dg_batch.specs.Held.{IsHeld, graphs_held};
ghost use Rattle.dg_graph.specs.Composition.{applied};
ghost use Rattle.dg_graph.specs.declared.element.Element.{Element};
ghost use Rattle.dg_graph.specs.Elements.{shown};
ghost use Rattle.dg_handles.specs.Handles.{IsSweptWhole, IsTied, graphs_without, slot_graphs, with_messages};
ghost use Rattle.dg_machine.specs.Answer.{headed};
ghost use Rattle.dg_machine.specs.declared.limits.TheConstants.{HANDLE_MAX, LIVE_HANDLES_MAX};
ghost use Rattle.dg_machine.specs.MachineState.{dependent_on, overlay_on, union_of_sets, without_handle};
ghost use Rattle.dg_pool.specs.Sweeps.{cells_of};
ghost use Rattle.dg_retrieval.specs.NamesThere.{NamesAreThere};
ghost use Rattle.dg_session.specs.Reads.{with_new_handles};
ghost use Rattle.dg_session.specs.Session.{ComesTo, is_of_node};
ghost use Rattle.dg_session.specs.Sweeps.{SweepsPool};
ghost use Rattle.dg_batch.specs.declared.stop.Stop.TheVariants as stop;

use super::Session;
use crate::needs::Needs;
use dg_append::Live;
use dg_ask::KeptPlanner;
use dg_batch::{Halt, Held, Stop};
use dg_delta::Delta;
use dg_handles::{Handles, law_tie_is_kept, law_union_of_handles};
use dg_machine::{Command, Head, Reply, Shown, Stands};
use dg_pool::Pool;
use std::alloc::AllocError;
use std::boxed::Box;

impl Session {
    // A new handle for a set, of a node that the index has or selected, to which the delta leads from nothing.
    pub(super) fn add_set(&mut self, stands: Stands, delta: &Delta) -> Result<(), AllocError>
        requires set { overlay_on stands.what ≡ None }
        requires node { HasNodeOf self.old.parts.index stands }
        requires room { length self.old.parts.table + 1 ≤ LIVE_HANDLES_MAX }
        requires numbers { self.old.parts.next + 1 ≤ HANDLE_MAX + 1 }
        requires named { NamesAreThere (length self.old.parts.names) delta.now.plus }
        ensures added { OnOk result (self.new.parts ≡ with_new_handles self.old.parts (stands ∷ []) (shown (applied delta.now []) (with_messages stands.cols) ∷ [])) }
        ensures err { OnErr result (self.new.parts ≡ self.old.parts) }
    {
        self.overlay()?;
        forget_base(&mut self.planner, stands);
        let Some(pool) = &mut self.held.live.pool else {
            unreachable!()
        };
        self.held.handles.add_set(pool, stands, delta)
    }

    // Gives a handle up.
    pub(super) fn release(&mut self, handle: u32) -> Result<Reply, Halt>
        ensures comes { (image : Option (List ℕ)) → ComesTo (Command.Release handle) [] self.old.parts image self.new.parts image result }
        ensures no_stop { (stop : Stop) → result ≡ Err (Halt.Stop stop) → ⊥ }
    {
        let needs = Needs {
            handle: Some(handle),
            unused: Some(handle),
            ..Needs::NOTHING
        };
        if let Some(refusal) = self.refused(&needs, 0) {
            return Err(Halt::Refusal(refusal));
        }
        let Some(stands) = self.held.handles.stands(handle) else {
            unreachable!()
        };
        forget_base(&mut self.planner, stands);
        self.held.adjacency.forget_handle(handle);
        give_up(&mut self.held.handles, &mut self.held.live.pool, handle);
        Ok(Reply::headed(self.alloc, Head::Released { handle }))
    }

    // Sweeps so many cells of the pool, if there is one.
    pub(super) fn clean(&mut self, cells: u32) -> Reply
        requires { 1 ≤ cells }
        ensures comes { (image : Option (List ℕ)) → ComesTo (Command.Clean cells) [] self.old.parts image self.new.parts image (Ok result) }
        ensures swept { SweepsPool (Command.Clean cells) self.old.pool self.new.pool result }
    {
        law_tie_is_kept();
        sweep(&mut self.held.live.pool, cells);
        Reply::headed(self.alloc, Head::Cleaned)
    }

    // Sweeps all cells of the pool, if there is one. Else there is the current graph alone.
    pub(super) fn clean_all(&mut self) -> Reply
        ensures comes { (image : Option (List ℕ)) → ComesTo Command.CleanAll [] self.old.parts image self.new.parts image (Ok result) }
        ensures swept { SweepsPool Command.CleanAll self.old.pool self.new.pool result }
    {
        law_tie_is_kept();
        law_union_of_handles();
        sweep_whole(&mut self.held.live.pool);
        let cells = cells_left(&self.held.live);
        Reply::headed(self.alloc, Head::CleanedAll { cells })
    }

    // How many handles live, and how many elements their graphs and the current one have together.
    pub(super) fn pool_size(&self) -> Reply
        ensures comes { (image : Option (List ℕ)) → ComesTo Command.Pool [] self.now.parts image self.now.parts image (Ok result) }
    {
        let live = self.held.handles.live();
        let size = union_len(&self.held);
        Reply::headed(self.alloc, Head::Pool { live, size })
    }
}

// Forgets the planners where a base comes or goes, since each is made for all that can serve.
fn forget_base(planner: &mut KeptPlanner, stands: Stands)
    ensures base { is_of_node stands ≡ true → planner.new ≡ [] }
    ensures other { is_of_node stands ≡ false → planner.new ≡ planner.old }
{
    if matches!(stands.what, Shown::Base(_)) {
        planner.forget();
    }
}

// Gives the handle up, on which no live one rests, and ends its slot. Where there is no pool, no handle lives.
fn give_up(handles: &mut Handles, pool: &mut Option<Box<Pool>>, handle: u32)
    requires tied { IsTied (pool_of pool.old) handles.old }
    requires unused { dependent_on handle handles.old.table ≡ None }
    ensures table { handles.new.table ≡ without_handle handle handles.old.table }
    ensures next { handles.new.next ≡ handles.old.next }
    ensures graphs { slot_graphs (pool_of pool.new) handles.new.slots ≡ graphs_without handle handles.old.table (slot_graphs (pool_of pool.old) handles.old.slots) }
    ensures tied { IsTied (pool_of pool.new) handles.new }
    ensures now { (graph : List Element) → IsOverlayOf graph (pool_in pool.old) → IsOverlayOf graph (pool_in pool.new) }
{
    if let Some(pool) = pool {
        handles.release(pool, handle);
    }
}

// Sweeps so many cells of the pool, if there is one.
fn sweep(pool: &mut Option<Box<Pool>>, cells: u32)
    requires { 1 ≤ cells }
    ensures graphs { SameOverlay (pool_in pool.old) (pool_in pool.new) }
    ensures swept { SweepsPool (Command.Clean cells) (pool_in pool.old) (pool_in pool.new) (headed Head.Cleaned) }
{
    if let Some(pool) = pool {
        pool.clean(cells);
    }
}

// Sweeps all cells of the pool, if there is one.
fn sweep_whole(pool: &mut Option<Box<Pool>>)
    ensures graphs { SameOverlay (pool_in pool.old) (pool_in pool.new) }
    ensures whole { IfSome (pool_in pool.new) IsSweptWhole }
{
    if let Some(pool) = pool {
        pool.clean_all();
    }
}

// How many cells the pool has, and where there is none, how many elements the current graph has.
fn cells_left(live: &Live) -> u64
    requires { live.now.history.now.pending ≡ [] }
    ensures { MatchOption (pool_in live.now.pool) (result ≡ length live.now.history.now.graph) (λ pool. result ≡ length (cells_of pool)) }
{
    match &live.pool {
        Some(pool) => pool.cell_len(),
        None => live.history.now.len_past(),
    }
}

// How many elements the current graph and the graphs of the handles have together.
fn union_len(held: &Held) -> u64
    requires { IsHeld held.now }
    ensures { result ≡ length (union_of_sets (held.now.live.history.now.graph ∷ graphs_held held.now)) }
{
    law_union_of_handles();
    match &held.live.pool {
        Some(pool) => pool.union_len(),
        None => held.live.history.now.len_past(),
    }
}
