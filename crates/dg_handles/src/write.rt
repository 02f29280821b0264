//! Deltas that are written to slots of a pool, each once for all slots that it is for.

ghost use Rattle.std.specs.Prelude.{◌≡◌, ℕ, false, IfOk, OnErr, OnOk};
ghost use Rattle.dg_handles.specs.Written.{AreWritten, slots_for};
ghost use Rattle.dg_pool.specs.Changes.{CanChange, ChangesSlots, numbers_of};
ghost use Rattle.dg_pool.specs.Graphs.{SameGraphs, graph_now, is_listed, slot_graph};

use dg_fold::{Writing, is_for};
use dg_pool::{Pool, Slot};
use std::alloc::{AllocError, Global};

// Those of the slots that the delta is for. An `Err` says that memory ran out.
fn slots_for(alloc: Global, writing: &Writing, slots: &[Slot]) -> Result<Vec<Slot>, AllocError>
    ensures { IfOk result (λ v. numbers_of v.items ≡ slots_for 0 writing.now (numbers_of slots.now)) }
{
    let mut chosen = Vec::with_capacity(alloc, slots.len())?;
    for i in 0..slots.len() {
        if is_for(writing, i) {
            chosen.push_reserved(slots[i]);
        }
    }
    Ok(chosen)
}

// Applies the delta to the graphs of the slots that it is for. An `Err` says that memory ran out; then all graphs are
// as before.
fn write(
    alloc: Global,
    pool: &mut Pool,
    slots: &[Slot],
    writing: &Writing,
) -> Result<(), AllocError>
    requires { CanChange (numbers_of slots.now) pool.old }
    ensures changes { OnOk result (ChangesSlots (slots_for 0 writing.now (numbers_of slots.now)) writing.now.delta pool.old pool.new) }
    ensures err { OnErr result (SameGraphs pool.old pool.new) }
{
    let chosen = slots_for(alloc, writing, slots)?;
    pool.change(&chosen, &writing.delta)
}

/// Applies each delta in turn to the graphs of the slots that it is for: the first slot has the graph of number 0. An
/// `Err` says that memory ran out; then some of the deltas are applied.
pub(crate) fn write_all(
    alloc: Global,
    pool: &mut Pool,
    slots: &[Slot],
    writings: &[Writing],
) -> Result<(), AllocError>
    requires { CanChange (numbers_of slots.now) pool.old }
    ensures written { OnOk result (AreWritten 0 (numbers_of slots.now) writings.now pool.old pool.new) }

    // and in any case
    ensures others { (s : ℕ) → is_listed (numbers_of slots.now) s ≡ false → slot_graph pool.new s ≡ slot_graph pool.old s }
    ensures now { graph_now pool.new ≡ graph_now pool.old }
    ensures can { CanChange (numbers_of slots.now) pool.new }
{
    for writing in writings {
        write(alloc, pool, slots, writing)?;
    }
    Ok(())
}
