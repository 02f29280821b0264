//! A history and the pool in which graphs are overlaid on its current one, which go on together.

ghost use Rattle.std.specs.Prelude.{◌≡◌, ℕ, IfOk, None, OnErr, OnOk, is_some, true};
ghost use Rattle.dg_append.specs.LiveHistories.{IsForgotten, IsLiveHistory};
ghost use Rattle.dg_append.specs.Overlays.{SameSlots, pool_in};
ghost use Rattle.dg_graph.specs.Replay.{replay_from};
ghost use Rattle.dg_pool.specs.Graphs.{graph_now, slot_graph};

use dg_current::{Now, SinceStart};
use dg_delta::Delta;
use dg_pool::Pool;
use dg_stored::StoredHistory;
use std::alloc::{AllocError, Global};
use std::boxed::Box;
use std::mem;

/// A history that is kept beside its index, and the pool in which its current graph is overlaid with others. The pool is
/// made with the first of these: until then the history alone keeps the current graph, and a batch costs nothing more.
#[derive(Drop)]
pub struct Live {
    /// The history.
    pub history: StoredHistory,
    /// The pool, once graphs are overlaid. On the heap: it is large.
    pub pool: Option<Box<Pool>>,
}

// The pool of the current graph past the pending events: that of the graph at the start, which is not copied, taken on by
// what changed since. An `Err` says that memory ran out.
fn current_pool(alloc: Global, now: &Now) -> Result<Pool, AllocError>
    ensures now { IfOk result (λ pool. graph_now pool ≡ replay_from now.now.graph now.now.pending) }
    ensures slots { IfOk result (λ pool. (s : ℕ) → slot_graph pool s ≡ None) }
{
    let SinceStart {
        start,
        lost,
        gained,
    } = now.since_start(alloc)?;
    let Some(changed) = Delta::from_sets(lost, gained) else {
        unreachable!()
    };
    let mut pool = Pool::from_set(alloc, start)?;
    pool.make_cells(changed.plus())?;
    pool.pass(&changed);
    Ok(pool)
}

impl Live {
    /// Makes the pool, unless there is one. No graph of a slot changes. An `Err` says that memory ran out; then nothing has
    /// changed.
    pub fn overlay(&mut self, alloc: Global) -> Result<(), AllocError>
        requires { IsLiveHistory self.old }
        ensures made { OnOk result (is_some self.new.pool ≡ true) }
        ensures history { self.new.history ≡ self.old.history }
        ensures slots { SameSlots (pool_in self.old.pool) (pool_in self.new.pool) }
        ensures live { IsLiveHistory self.new }
        ensures err { OnErr result (self.new ≡ self.old) }
    {
        if self.pool.is_some() {
            return Ok(());
        }
        let pool = current_pool(alloc, &self.history.now)?;
        self.pool = Some(Box::new(alloc, pool)?);
        Ok(())
    }

    /// Forgets the history and all graphs. Takes no memory.
    pub fn forget(&mut self, alloc: Global)
        ensures none { IsForgotten self.new }
        ensures live { IsLiveHistory self.new }
    {
        let seed = self.history.names.seed();
        drop(mem::replace(&mut self.history, StoredHistory::empty(alloc, seed)));
        self.pool = None;
    }
}
