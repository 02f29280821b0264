//! The live handles with their sets.
ghost use Rattle.std.specs.Prelude.{◌≡◌, ◌+◌, ◌<◌, ◌≤◌, [], IfNone, IfOk, IfSome, OnErr, OnOk, is_some, length, map, option_copied};
ghost use Rattle.dg_machine.specs.declared.limits.TheConstants.{HANDLE_MAX, LIVE_HANDLES_MAX};
ghost use Rattle.dg_part_runs.specs.HandleSets.{IsFirstEntry, NoEntry, with_next};
ghost use Rattle.dg_part_runs.specs.PartsMachine.{set_at, without_set};

use dg_machine::{HANDLE_MAX, LIVE_HANDLES_MAX};
use dg_set::Set;
use std::alloc::{AllocError, Global};
use std::marker::Model;

// A live handle with its set.
#[derive(Drop)]
struct HeldSet {
    handle: u32,
    set: Set,
}

/// The live handles with their sets, the oldest first, and the number of the next one.
#[derive(Drop)]
pub(crate) struct HandleSets {
    held: Vec<HeldSet>,
    next: u64,
}

impl Model for HandleSets {
    ghost use Rattle.std.specs.Prelude.{◌+◌, ◌≤◌, map, vec_len};
    ghost use Rattle.dg_machine.specs.declared.limits.TheConstants.{HANDLE_MAX, LIVE_HANDLES_MAX};
    ghost use Rattle.dg_part_runs.specs.HandleSets.{HandleSetsState};

    ghost Value = { HandleSetsState };

    ghost view = { λ h. record { sets = map (λ e. (e.handle, e.set)) h.held.items; next = h.next } };

    ghost invariant = { λ h. (vec_len h.held ≤ LIVE_HANDLES_MAX) × (h.next ≤ HANDLE_MAX + 1) };
}

// The place of the first entry with the handle.
fn place_of(held: &[HeldSet], handle: u32) -> Option<usize>
    ensures some { IfSome result (IsFirstEntry handle (map (λ e. e.handle) held.now)) }
    ensures none { IfNone result (NoEntry handle (map (λ e. e.handle) held.now)) }
{
    for (place, entry) in held.iter().enumerate() {
        if entry.handle == handle {
            return Some(place);
        }
    }
    None
}

impl HandleSets {
    /// No handle; the first one is to have this number.
    pub(crate) fn new(alloc: Global, first: u32) -> HandleSets
        ensures { result ≡ record { sets = []; next = first } }
    {
        HandleSets {
            held: Vec::new(alloc),
            next: u64::from(first),
        }
    }

    /// How many handles live.
    pub(crate) fn live(&self) -> u32
        ensures live { result ≡ length self.now.sets }
        ensures few { result ≤ LIVE_HANDLES_MAX }
    {
        self.held.len() as u32
    }

    /// The number of the next handle.
    pub(crate) fn next(&self) -> u64
        ensures next { result ≡ self.now.next }
        ensures most { result ≤ HANDLE_MAX + 1 }
    {
        self.next
    }

    /// The set of the handle, where it is live.
    pub(crate) fn set(&self, handle: u32) -> Option<&Set>
        ensures { option_copied result ≡ set_at handle self.now.sets }
    {
        match place_of(&self.held, handle) {
            Some(place) => Some(&self.held[place].set),
            None => None,
        }
    }

    /// A new handle for the set. An `Err` says that memory ran out; then nothing has changed.
    pub(crate) fn add(&mut self, set: Set) -> Result<u32, AllocError>
        requires room { length self.old.sets < LIVE_HANDLES_MAX }
        requires number { self.old.next ≤ HANDLE_MAX }
        ensures added { OnOk result (self.new ≡ with_next self.old set) }
        ensures handle { IfOk result (λ handle. handle ≡ self.old.next) }
        ensures err { OnErr result (self.new ≡ self.old) }
    {
        let handle = self.next as u32;
        self.held.push(HeldSet { handle, set })?;
        self.next += 1;
        Ok(handle)
    }

    /// Gives the handle up, and answers whether it was live.
    pub(crate) fn release(&mut self, handle: u32) -> bool
        ensures live { result ≡ is_some (set_at handle self.old.sets) }
        ensures sets { self.new.sets ≡ without_set handle self.old.sets }
        ensures next { self.new.next ≡ self.old.next }
    {
        match place_of(&self.held, handle) {
            Some(place) => {
                self.held.remove(place);
                true
            }
            None => false,
        }
    }
}
