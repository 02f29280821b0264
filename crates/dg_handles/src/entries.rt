//! The entries of the table of live handles.

ghost use Rattle.std.specs.Prelude.{◌≡◌, ◌+◌, ◌≤◌, [], ◌∷◌, ◌++◌, IfNone, IfOk, IfSome, length, map, vec_capacity, vec_len};
ghost use Rattle.dg_handles.specs.Handles.{numbered, overlays_on};
ghost use Rattle.dg_handles.specs.FirstEntry.{IsFirst, NoneIs};
ghost use Rattle.dg_machine.specs.MachineState.{dependent_on, is_overlay_on};
ghost use Rattle.dg_machine.specs.Planning.{bases_in, includes, usable};
ghost use Rattle.dg_machine.specs.declared.limits.TheConstants.{HANDLE_MAX};
ghost use Rattle.dg_planner.specs.Bases.{base_of as node_of};
ghost use Rattle.dg_retrieval.specs.Beginnings.{base_handle};
ghost use Rattle.dg_pool.specs.Changes.{numbers_of};

use dg_graph::Columns;
use dg_machine::{Shown, Stands};
use dg_planner::Base;
use dg_pool::Slot;
use dg_retrieval::Beginning;
use std::alloc::{AllocError, Global};

/// A live handle, with what it stands for and the slot that has its graph.
#[derive(Clone, Copy)]
pub(crate) struct Entry {
    pub(crate) handle: u32,
    pub(crate) stands: Stands,
    pub(crate) slot: Slot,
}

/// The index of the first entry with this handle.
pub(crate) fn index_of_handle(entries: &[Entry], handle: u32) -> Option<usize>
    ensures some { IfSome result (IsFirst handle (map (λ e. e.handle) entries.now)) }
    ensures none { IfNone result (NoneIs handle (map (λ e. e.handle) entries.now)) }
{
    for (entry_index, entry) in entries.iter().enumerate() {
        if entry.handle == handle {
            return Some(entry_index);
        }
    }
    None
}

// Whether it stands for an overlay on this handle.
fn rests_on(stands: Stands, handle: u32) -> bool
    ensures { result ≡ is_overlay_on handle stands }
{
    match stands.what {
        Shown::Overlay { on: Some(base), .. } => base == handle,
        _ => false,
    }
}

/// The first handle that stands for an overlay on this one.
pub(crate) fn dependent(entries: &[Entry], handle: u32) -> Option<u32>
    ensures { result ≡ dependent_on handle (map (λ e. (e.handle, e.stands)) entries.now) }
{
    for entry in entries {
        if rests_on(entry.stands, handle) {
            return Some(entry.handle);
        }
    }
    None
}

// Whether a base in the first columns has all of the second. It has the messages in any case.
fn includes(all: Columns, cols: Columns) -> bool
    ensures { result ≡ includes all cols }
{
    (all.nodes_attr || !cols.nodes_attr) && (all.edges_attr || !cols.edges_attr)
}

// The handle with its node, where it holds the set of one in columns that have all of these.
fn usable(entry: &Entry, cols: Columns) -> Option<Base>
    ensures some { IfSome result (λ base. usable cols (entry.now.handle, entry.now.stands) ≡ node_of base ∷ []) }
    ensures none { IfNone result (usable cols (entry.now.handle, entry.now.stands) ≡ []) }
{
    match entry.stands.what {
        Shown::Base(node) if includes(entry.stands.cols, cols) => Some(Base {
            handle: entry.handle,
            node,
        }),
        _ => None,
    }
}

/// The handles that hold bases for these columns, with their nodes. An `Err` says that memory ran out.
pub(crate) fn bases(
    alloc: Global,
    entries: &[Entry],
    cols: Columns,
) -> Result<Vec<Base>, AllocError>
    ensures { IfOk result (λ v. map node_of v.items ≡ bases_in cols (map (λ e. (e.handle, e.stands)) entries.now)) }
{
    let mut bases = Vec::new(alloc);
    for entry in entries {
        if let Some(base) = usable(entry, cols) {
            bases.push(base)?;
        }
    }
    Ok(bases)
}

// The handle whose set a graph begins with, if with that of any.
fn base_of(begins: Beginning) -> Option<u32>
    ensures { result ≡ base_handle begins }
{
    match begins {
        Beginning::Base(handle) => Some(handle),
        _ => None,
    }
}

/// What stands for the graphs as of these instants, each on what it begins with. An `Err` says that memory ran out.
pub(crate) fn overlays(
    alloc: Global,
    cols: Columns,
    times: &[u64],
    begins: &[Beginning],
) -> Result<Vec<Stands>, AllocError>
    requires { length begins.now ≡ length times.now }
    ensures { IfOk result (λ v. v.items ≡ overlays_on cols times.now (map base_handle begins.now)) }
{
    let mut overlays = Vec::with_capacity(alloc, times.len())?;
    for i in 0..times.len() {
        overlays.push_reserved(Stands {
            what: Shown::Overlay {
                t: times[i],
                on: base_of(begins[i]),
            },
            cols,
        });
    }
    Ok(overlays)
}

/// Adds an entry for each of these, with the numbers from this one on and the slot beside it. There is room for them.
pub(crate) fn enter(entries: &mut Vec<Entry>, next: u64, stands: &[Stands], slots: &[Slot])
    requires slots { length slots.now ≡ length stands.now }
    requires room { vec_len entries.old + length stands.now ≤ vec_capacity entries.old }
    requires numbers { next + length stands.now ≤ HANDLE_MAX + 1 }
    ensures table { map (λ e. (e.handle, e.stands)) entries.new.items ≡ map (λ e. (e.handle, e.stands)) entries.old.items ++ numbered next stands.now }
    ensures slots { map (λ e. e.slot.0) entries.new.items ≡ map (λ e. e.slot.0) entries.old.items ++ numbers_of slots.now }
    ensures len { vec_len entries.new ≡ vec_len entries.old + length stands.now }
    ensures capacity { vec_capacity entries.new ≡ vec_capacity entries.old }
{
    for i in 0..stands.len() {
        entries.push_reserved(Entry {
            handle: (next + i as u64) as u32,
            stands: stands[i],
            slot: slots[i],
        });
    }
}
