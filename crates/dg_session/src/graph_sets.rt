//! The graphs to which leads come, each as a set of its own. An expression chooses from such sets, which are given back once
//! it has chosen; no slot of the pool is taken for them.

ghost use Rattle.std.specs.Prelude.{◌≡◌, IfOk, map};
ghost use Rattle.dg_append.specs.Overlays.{pool_of};
ghost use Rattle.dg_batch.specs.Held.{IsHeld, graphs_held};
ghost use Rattle.dg_fold.specs.Writings.{composed_all, written_for};
ghost use Rattle.dg_graph.specs.Composition.{applied};
ghost use Rattle.dg_graph.specs.Elements.{shown};
ghost use Rattle.dg_handles.specs.Handles.{IsTied, held_by, slot_graphs};
ghost use Rattle.dg_retrieval.specs.Beginnings.{begun_with, leads_in, led_to};

use dg_batch::Held;
use dg_fold::{Writing, compose_for};
use dg_gather::shown;
use dg_graph::Columns;
use dg_handles::Handles;
use dg_pool::Pool;
use dg_retrieval::{Beginning, Leads};
use dg_set::Set;
use std::alloc::{AllocError, Global};
use std::boxed::Box;

/// The graph to which each lead comes, in these columns. All of them are in memory at once. An `Err` says that memory ran
/// out.
pub fn led_sets(
    alloc: Global,
    held: &Held,
    leads: &Leads,
    cols: Columns,
) -> Result<Vec<Set>, AllocError>
    requires held { IsHeld held.now }
    ensures { IfOk result (λ sets. sets.items ≡ map (led_to held.now.live.history.now.graph (held_by held.now.handles.table (graphs_held held.now)) cols) (leads_in leads.now)) }
{
    let mut sets = Vec::with_capacity(alloc, leads.begins.len())?;
    for i in 0..leads.begins.len() {
        let begun = begun_set(alloc, held, leads.begins[i])?;
        let set = led_set(alloc, &leads.writings, i, begun, cols)?;
        sets.push(set)?;
    }
    Ok(sets)
}

/// The set with which a graph begins. An `Err` says that memory ran out.
pub fn begun_set(alloc: Global, held: &Held, begins: Beginning) -> Result<Set, AllocError>
    requires held { IsHeld held.now }
    ensures { IfOk result (λ set. set ≡ begun_with held.now.live.history.now.graph (held_by held.now.handles.table (graphs_held held.now)) begins) }
{
    match begins {
        Beginning::Nothing => Ok(Set::new(alloc)),
        Beginning::Now => held.live.history.now.set_past(alloc),
        Beginning::Base(handle) => set_of_handle(alloc, &held.handles, &held.live.pool, handle),
    }
}

// What a handle lists. Where there is no pool, no handle lives.
fn set_of_handle(
    alloc: Global,
    handles: &Handles,
    pool: &Option<Box<Pool>>,
    handle: u32,
) -> Result<Set, AllocError>
    requires tied { IsTied (pool_of pool.now) handles.now }
    ensures { IfOk result (λ set. set ≡ held_by handles.now.table (slot_graphs (pool_of pool.now) handles.now.slots) handle) }
{
    let Some(pool) = pool else {
        return Ok(Set::new(alloc));
    };
    // Its clause says that the elements of each graph rise.
    pool.facts();
    match handles.view(pool, handle) {
        Some(graph) => {
            let elements = graph.list(alloc)?;
            Ok(Set::from_rising(elements))
        }
        None => Ok(Set::new(alloc)),
    }
}

// What comes of the set by those of the deltas that are written for the target of this number, cut to the columns. The deltas
// are composed first, by halves, so that the set is gone over once.
fn led_set(
    alloc: Global,
    writings: &[Writing],
    number: usize,
    begun: Set,
    cols: Columns,
) -> Result<Set, AllocError>
    ensures { IfOk result (λ set. set ≡ shown (applied (composed_all (written_for number writings.now)) begun) cols) }
{
    let delta = compose_for(alloc, writings, number)?;
    let set = begun.into_replaced(delta.minus(), delta.plus())?;
    Ok(shown(set, cols))
}
