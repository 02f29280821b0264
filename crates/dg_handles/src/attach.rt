//! Slots of a pool that are given to new graphs, and ended.

ghost use Rattle.std.specs.Prelude.{◌≡◌, ℕ, true, false, None, IfOk, IsSome, OnErr};
ghost use Rattle.dg_graph.specs.Composition.{applied};
ghost use Rattle.dg_graph.specs.Elements.{shown};
ghost use Rattle.dg_handles.specs.Attached.{IsAttached};
ghost use Rattle.dg_pool.specs.Changes.{AreDistinct, NoneRestsOn, numbers_of};
ghost use Rattle.dg_pool.specs.Graphs.{SameGraphs, graph_now, is_listed, slot_graph};
ghost use Rattle.dg_pool.specs.Slots.{AllLive, BaseFits, IsLive, base_members};

use dg_delta::Delta;
use dg_graph::Columns;
use dg_pool::{AttachFault, Base, Pool, Slot};
use std::alloc::{AllocError, Global};

/// A slot for the graph of the base, changed by the delta and cut to the columns. An `Err` says that memory ran out;
/// then all graphs are as before.
pub(crate) fn attach(
    pool: &mut Pool,
    base: Base,
    delta: &Delta,
    cols: Columns,
) -> Result<Slot, AllocError>
    requires room { AllLive pool.old → ⊥ }
    requires base { BaseFits pool.old base cols }
    ensures slot { IfOk result (λ s. IsAttached pool.old pool.new s.0
        (record { base = base; cols = cols; members = shown (applied delta.now (base_members pool.old base)) cols })) }
    ensures err { OnErr result (SameGraphs pool.old pool.new) }
{
    match pool.attach(base, delta, cols) {
        Ok(slot) => Ok(slot),
        Err(AttachFault::Memory) => Err(AllocError),
        Err(AttachFault::PoolFull) => unreachable!(),
    }
}

/// A slot for the graph of the base, cut to the columns. An `Err` says that memory ran out; then all graphs are as
/// before.
pub(crate) fn attach_unchanged(
    alloc: Global,
    pool: &mut Pool,
    base: Base,
    cols: Columns,
) -> Result<Slot, AllocError>
    requires room { AllLive pool.old → ⊥ }
    requires base { BaseFits pool.old base cols }
    ensures slot { IfOk result (λ s. IsAttached pool.old pool.new s.0
        (record { base = base; cols = cols; members = shown (base_members pool.old base) cols })) }
    ensures err { OnErr result (SameGraphs pool.old pool.new) }
{
    attach(pool, base, &Delta::new(alloc), cols)
}

/// Ends a live slot on which no live slot rests. Takes no memory.
pub(crate) fn detach(pool: &mut Pool, slot: Slot)
    requires live { IsLive pool.old slot }
    requires unused { NoneRestsOn pool.old slot.0 }
    ensures gone { slot_graph pool.new slot.0 ≡ None }
    ensures others { (s : ℕ) → (s ≡ slot.0 → ⊥) → slot_graph pool.new s ≡ slot_graph pool.old s }
    ensures now { graph_now pool.new ≡ graph_now pool.old }
{
    match pool.release(slot) {
        Ok(()) => {}
        Err(_) => unreachable!(),
    }
}

/// Ends live slots, each of which stands here once, and on which no live slot rests. Takes no memory.
pub(crate) fn detach_all(pool: &mut Pool, slots: &[Slot])
    requires live { (s : ℕ) → is_listed (numbers_of slots.now) s ≡ true → IsSome (slot_graph pool.old s) }
    requires apart { AreDistinct (numbers_of slots.now) }
    requires unused { (s : ℕ) → is_listed (numbers_of slots.now) s ≡ true → NoneRestsOn pool.old s }
    ensures gone { (s : ℕ) → is_listed (numbers_of slots.now) s ≡ true → slot_graph pool.new s ≡ None }
    ensures others { (s : ℕ) → is_listed (numbers_of slots.now) s ≡ false → slot_graph pool.new s ≡ slot_graph pool.old s }
    ensures now { graph_now pool.new ≡ graph_now pool.old }
{
    for slot in slots {
        detach(pool, *slot);
    }
}
