//! What is asked of a handle's graph.

ghost use Rattle.std.specs.Prelude.{◌≡◌, ℕ, List, [], Option, None, Some, is_some, true};
ghost use Rattle.dg_append.specs.Overlays.{pool_of};
ghost use Rattle.dg_handles.specs.Handles.{IsTied, graph_among, slot_graphs};
ghost use Rattle.dg_machine.specs.Answer.{columns_if};
ghost use Rattle.dg_machine.specs.MachineState.{stands_at};
ghost use Rattle.dg_session.specs.Session.{ComesTo};
ghost use Rattle.dg_batch.specs.declared.stop.Stop.TheVariants as stop;

use super::Session;
use crate::needs::Needs;
use dg_ask::{AskedGraph, answer, is_of_nodes};
use dg_batch::{Halt, Stop};
use dg_handles::Handles;
use dg_machine::{Command, Query, Reply};
use dg_pool::Pool;
use dg_view::View;
use std::boxed::Box;

impl Session {
    // What is asked of a handle's graph.
    pub(super) fn ask(&mut self, handle: u32, query: Query) -> Result<Reply, Halt>
        ensures comes { (image : Option (List ℕ)) → ComesTo (Command.Ask handle query) [] self.old.parts image self.new.parts image result }
        ensures no_stop { (stop : Stop) → result ≡ Err (Halt.Stop stop) → ⊥ }
    {
        let needs = Needs {
            handle: Some(handle),
            overlay: is_of_nodes(query),
            ..Needs::NOTHING
        };
        if let Some(refusal) = self.refused(&needs, 0) {
            return Err(Halt::Refusal(refusal));
        }
        let asked = asked_graph(&self.held.handles, &self.held.live.pool, handle);
        Ok(answer(self.alloc, &mut self.held.adjacency, &asked, query)?)
    }
}

// The graph of a live handle, with its columns.
fn asked_graph<'a>(handles: &Handles, pool: &'a Option<Box<Pool>>, handle: u32) -> AskedGraph<'a>
    requires tied { IsTied (pool_of pool.now) handles.now }
    requires live { is_some (stands_at handle handles.now.table) ≡ true }
    ensures handle { result.handle ≡ handle }
    ensures graph { graph_among handle handles.now.table (slot_graphs (pool_of pool.now) handles.now.slots) ≡ Some result.graph }
    ensures columns { result.cols ≡ columns_if (stands_at handle handles.now.table) }
{
    let Some(stands) = handles.stands(handle) else {
        unreachable!()
    };
    let Some(graph) = view_of(handles, pool, handle) else {
        unreachable!()
    };
    AskedGraph {
        handle,
        graph,
        cols: stands.cols,
    }
}

// The graph of a handle. Where there is no pool there is no handle.
fn view_of<'a>(handles: &Handles, pool: &'a Option<Box<Pool>>, handle: u32) -> Option<View<'a>>
    requires tied { IsTied (pool_of pool.now) handles.now }
    ensures graph { result ≡ graph_among handle handles.now.table (slot_graphs (pool_of pool.now) handles.now.slots) }
    ensures there { is_some result ≡ is_some (stands_at handle handles.now.table) }
{
    match pool {
        Some(pool) => handles.view(pool, handle),
        None => None,
    }
}
