//! The pool of graphs.
ghost use Rattle.std.specs.Prelude.{◌≡◌, ◌<◌, ◌≤◌, ◌^◌, ℕ, true, false, [], ◌∷◌, None, Some, IfSome, IfOk, IfErr, IfNone, OnErr, OnOk, IsErrOf, length};
ghost use Rattle.dg_graph.specs.Replay.{replay_from};
ghost use Rattle.dg_pool.specs.declared.slots.SlotState.TheVariants as state;
ghost use Rattle.dg_pool.specs.declared.pool.AttachFault.TheVariants.{Memory};
ghost use Rattle.dg_pool.specs.Graphs.{PoolState, graph_now, slot_graph, CellsStay, HaveCells, KeepsSweep, SameGraphs, slot_at, pair_at, is_live};
ghost use Rattle.dg_pool.specs.Sweeps.{union_of, cells_of, IsSweep, members_as, freed};
ghost use Rattle.dg_cells.specs.Rows.{cell_at, AllHave, AreNumbers, CellsGrow, Reuses};
ghost use Rattle.dg_query.specs.Queries.{counts_of};
ghost use Rattle.dg_pool.specs.Changes.{CanChange, ChangesSlots, NamesNew, numbers_of};
ghost use Rattle.dg_pool.specs.Listing.{members_from, not_before, up_to};
ghost use Rattle.dg_pool.specs.Slots.{IsLive, live_count, IsLeastOn, NoneOn, IsLeastFree, NoneFree, AllLive, BaseFits, base_members, is_free, NamesOnly, TakesSlot};
ghost use Rattle.dg_graph.specs.Elements.{IsSet, shown, has, before};
ghost use Rattle.dg_graph.specs.Composition.{applied};

use crate::changes::write_delta;
use crate::counts::{base_counts, count_kinds, counts_shown, no_counts};
use crate::current::{pass_all, pass_delta};
use crate::lengths::{count_all, count_needed};
use crate::members::{has_member, next_member};
use crate::room::{add_by_all, make_rising};
use crate::slots::{
    Base, Slot, SlotState, all_free, begin, count_live, end, least_free, least_on, list_on_now,
    start,
};
use crate::sweep::sweep;
use dg_cells::{Cells, Cursor};
use dg_delta::Delta;
use dg_graph::{Columns, Element, Event};
use dg_query::Counts;
use dg_set::Set;
use std::alloc::{AllocError, Global};
use std::marker::Model;
use thiserror::Error;

/// The current graph and the graphs of the live slots, overlaid in one list of cells.
#[derive(Drop)]
pub struct Pool {
    cells: Cells,
    slots: [SlotState; 128],
    // of each live slot, and first of the current graph
    counts: [Counts; 128],
    // the number of the next cell that a sweep passes; 0 is the beginning
    sweep_index: usize,
}

/// Why a graph got no slot.
#[derive(Clone, Copy, Debug, PartialEq, Eq, Error)]
pub enum AttachFault {
    /// 127 slots are live.
    #[error("127 slots are live")]
    PoolFull,
    /// Memory ran out.
    #[error("out of memory")]
    Memory,
}

impl From<AllocError> for AttachFault {
    ghost from_gives = { λ _ fault. fault ≡ Memory };

    fn from(_error: AllocError) -> AttachFault {
        AttachFault::Memory
    }
}

/// Live slots rest on the slot that was to be released; this is the least of them.
#[derive(Clone, Copy, Debug, PartialEq, Eq, Error)]
#[error("the live slot {} rests on it", .0.0)]
pub struct InUse(pub Slot);

/// How far a sweep has come.
#[derive(Clone, Copy)]
pub enum Swept {
    /// It has passed all cells.
    Done,
    /// Cells are left.
    More,
}

impl Model for Pool {
    ghost use Rattle.dg_pool.specs.Graphs.{PoolState};
    ghost use Rattle.dg_pool.specs.Counts.{IsCountedPool};

    ghost Value = { PoolState };

    ghost view = { λ p. record { rows = p.cells; slots = p.slots; sweep_index = p.sweep_index } };

    ghost invariant = { λ p. IsCountedPool (record { rows = p.cells; slots = p.slots; sweep_index = p.sweep_index }) p.counts };
}

impl Pool {
    /// An empty current graph and no live slot. Takes no memory yet.
    pub fn new(alloc: Global) -> Pool
        ensures now { graph_now result ≡ [] }
        ensures slots { (s : ℕ) → slot_graph result s ≡ None }
        ensures free { (s : ℕ) → slot_at result.slots s ≡ state.Free }
        ensures cells { cells_of result ≡ [] }
        ensures sweep_index { result.sweep_index ≡ 0 }
    {
        Pool {
            cells: Cells::new(alloc),
            slots: all_free(),
            counts: no_counts(),
            sweep_index: 0,
        }
    }

    /// The pool whose current graph is the set, and which has no live slot. An `Err` says that memory ran
    /// out, or that the set has more than 2^32 - 1 elements.
    pub fn from_set(alloc: Global, set: &Set) -> Result<Pool, AllocError>
        ensures now { IfOk result (λ p. graph_now p ≡ set.now) }
        ensures slots { IfOk result (λ p. (s : ℕ) → slot_graph p s ≡ None) }
        ensures free { IfOk result (λ p. (s : ℕ) → slot_at p.slots s ≡ state.Free) }
        ensures cells { IfOk result (λ p. cells_of p ≡ set.now) }
        ensures sweep_index { IfOk result (λ p. p.sweep_index ≡ 0) }
    {
        let cells = Cells::from_rising(alloc, set.items(), true)?;
        cells.facts();
        let mut counts = no_counts();
        counts[0] = count_kinds(set.items());
        Ok(Pool {
            cells,
            slots: all_free(),
            counts,
            sweep_index: 0,
        })
    }

    /// Takes the current graph past the events. No slot's members change. Takes no memory.
    pub fn apply_now(&mut self, events: &[Event])
        requires { HaveCells self.old.rows events.now }
        ensures now { graph_now self.new ≡ replay_from (graph_now self.old) events.now }
        ensures slots { (s : ℕ) → slot_graph self.new s ≡ slot_graph self.old s }
        ensures cells { CellsStay self.old.rows self.new.rows }
        ensures sweep { KeepsSweep self.old self.new }
    {
        let (on_now, len) = list_on_now(&self.slots);
        self.counts[0] = pass_all(
            &mut self.cells,
            &self.slots,
            &on_now[..len],
            self.counts[0],
            events,
        );
        self.cells.facts();
    }

    /// Takes the current graph on by a delta. No slot's members change, and each element keeps its cell. Takes no
    /// memory.
    pub fn pass(&mut self, delta: &Delta)
        requires { AllHave self.old.rows delta.now.plus }
        ensures now { graph_now self.new ≡ applied delta.now (graph_now self.old) }
        ensures slots { (s : ℕ) → slot_graph self.new s ≡ slot_graph self.old s }
        ensures cells { CellsStay self.old.rows self.new.rows }
        ensures sweep { KeepsSweep self.old self.new }
    {
        let (on_now, len) = list_on_now(&self.slots);
        self.counts[0] = pass_delta(
            &mut self.cells,
            &self.slots,
            &on_now[..len],
            self.counts[0],
            delta,
        );
        self.cells.facts();
    }

    /// Ends a slot. `Err` is the least slot that rests on it.
    pub fn release(&mut self, slot: Slot) -> Result<(), InUse>
        requires { IsLive self.old slot }
        ensures free { IfOk result (λ _. NoneOn self.old.slots slot.0) }
        ensures in_use { IfErr result (λ e. IsLeastOn self.old.slots slot.0 e.0.0) }
        ensures err { OnErr result (self.new ≡ self.old) }
        ensures released { IfOk result (λ _. slot_at self.new.slots slot.0 ≡ state.Released false) }
        ensures now { graph_now self.new ≡ graph_now self.old }
        ensures others { (s : ℕ) → (s ≡ slot.0 → ⊥) → slot_graph self.new s ≡ slot_graph self.old s }
        ensures states { (t : ℕ) → (t ≡ slot.0 → ⊥) → slot_at self.new.slots t ≡ slot_at self.old.slots t }
        ensures rows { self.new.rows ≡ self.old.rows }
        ensures place { self.new.sweep_index ≡ self.old.sweep_index }
    {
        if let Some(other) = least_on(&self.slots, slot.0) {
            return Err(InUse(Slot(other)));
        }
        self.slots[slot.0 as usize] = SlotState::Released { swept: false };
        Ok(())
    }

    /// Passes the next `cells` cells, or all that are left, by rising number from where the last sweep
    /// stopped, and gives back those whose element is in no live graph. `Done` where no cell is left:
    /// the slots that were released before this sweep began are free then, and the next sweep begins at
    /// the first cell. No graph changes. The cells given back are used again. Takes no memory.
    pub fn clean(&mut self, cells: u32) -> Swept
        requires { 1 ≤ cells }
        ensures graphs { SameGraphs self.old self.new }
        ensures sweep { IsSweep self.old self.new cells result }
    {
        start(&mut self.slots, self.sweep_index);
        let sweep_index = sweep(
            &mut self.cells,
            &self.slots,
            self.sweep_index,
            u64::from(cells),
        );
        self.cells.facts();
        if sweep_index < self.cells.len() {
            self.sweep_index = sweep_index;
            return Swept::More;
        }
        end(&mut self.slots);
        self.sweep_index = 0;
        Swept::Done
    }

    /// A whole sweep from the first cell on, wherever a sweep stood. The cells that are left are those
    /// of the union of the live graphs, and each slot that is not live is free. No graph changes. Takes no
    /// memory.
    pub fn clean_all(&mut self)
        ensures graphs { SameGraphs self.old self.new }
        ensures cells { cells_of self.new ≡ union_of self.new }
        ensures sweep_index { self.new.sweep_index ≡ 0 }
        ensures free { (s : ℕ) → is_live (slot_at self.new.slots s) ≡ false → slot_at self.new.slots s ≡ state.Free }
        ensures states { (s : ℕ) → slot_at self.new.slots s ≡ freed (slot_at self.old.slots s) }
    {
        begin(&mut self.slots);
        let count = self.cells.len() as u64;
        sweep(&mut self.cells, &self.slots, 0, count);
        self.cells.facts();
        end(&mut self.slots);
        self.sweep_index = 0;
    }

    // The least free slot, after a whole sweep where none is free.
    fn free_slot(&mut self) -> Option<u8>
        ensures graphs { SameGraphs self.old self.new }
        ensures some { IfSome result (IsLeastFree self.new.slots) }
        ensures takes { IfSome result (TakesSlot self.old self.new) }
        ensures stays { (NoneFree self.old.slots → ⊥) → self.new ≡ self.old }
        ensures none { IfNone result (AllLive self.old) }
    {
        if let Some(slot) = least_free(&self.slots) {
            return Some(slot);
        }
        self.clean_all();
        least_free(&self.slots)
    }

    // Gives each of the elements a cell, and answers the numbers of their cells. No graph changes. An `Err` says that
    // memory ran out; some may have got one.
    fn make_numbered(&mut self, elements: &Set) -> Result<Vec<u32>, AllocError>
        ensures graphs { SameGraphs self.old self.new }
        ensures sweep { KeepsSweep self.old self.new }
        ensures grows { CellsGrow self.old.rows self.new.rows }
        ensures there { OnOk result (AllHave self.new.rows elements.now) }
        ensures numbers { IfOk result (λ numbers. AreNumbers self.new.rows elements.now numbers.items) }
        ensures reuses { OnOk result (Reuses self.old.rows self.new.rows) }
    {
        make_rising(&mut self.cells, elements.items())
    }

    // Makes a free slot live: its graph is that of the base, cut to the columns. It has no bit of its own yet, and no
    // live slot rests on it.
    fn make_live(&mut self, slot: u8, base: Base, cols: Columns)
        requires free { IsLeastFree self.old.slots slot }
        requires base { BaseFits self.old base cols }
        ensures slot { slot_graph self.new slot ≡ Some (record { base = base; cols = cols; members = shown (base_members self.old base) cols }) }
        ensures others { (t : ℕ) → (t ≡ slot → ⊥) → slot_graph self.new t ≡ slot_graph self.old t }
        ensures states { (t : ℕ) → (t ≡ slot → ⊥) → slot_at self.new.slots t ≡ slot_at self.old.slots t }
        ensures cells { self.new.rows ≡ self.old.rows }
        ensures place { self.new.sweep_index ≡ self.old.sweep_index }
        ensures bits { (n : ℕ) → pair_at slot (cell_at self.old.rows n) ≡ (false, false) }
        ensures can { CanChange (slot ∷ []) self.new }
    {
        let was = base_counts(&self.counts, base);
        self.counts[slot as usize] = counts_shown(was, cols);
        self.slots[slot as usize] = SlotState::Live { base, cols };
    }

    // Applies the delta to the graphs of these slots, cut to their columns. The cells of the elements that it puts in
    // have these numbers.
    fn write(&mut self, slots: &[Slot], delta: &Delta, numbers: &[u32])
        requires can { CanChange (numbers_of slots.now) self.old }
        requires numbers { AreNumbers self.old.rows delta.now.plus numbers.now }
        ensures changes { ChangesSlots (numbers_of slots.now) delta.now self.old self.new }
        ensures sweep { KeepsSweep self.old self.new }
        ensures cells { CellsStay self.old.rows self.new.rows }
        ensures explicit { NamesNew delta.now self.old.rows self.new.rows }
    {
        write_delta(
            &mut self.cells,
            &mut self.counts,
            &self.slots,
            slots,
            delta,
            numbers,
        );
    }

    // Gives a free slot its graph.
    fn attach_at(
        &mut self,
        slot: u8,
        base: Base,
        delta: &Delta,
        cols: Columns,
    ) -> Result<(), AllocError>
        requires free { IsLeastFree self.old.slots slot }
        requires base { BaseFits self.old base cols }
        ensures slot { OnOk result (slot_graph self.new slot ≡ Some (record { base = base; cols = cols; members = shown (applied delta.now (base_members self.old base)) cols })) }
        ensures others { (t : ℕ) → (t ≡ slot → ⊥) → slot_graph self.new t ≡ slot_graph self.old t }
        ensures now { graph_now self.new ≡ graph_now self.old }
        ensures err { OnErr result (slot_graph self.new slot ≡ slot_graph self.old slot) }
        ensures err_states { OnErr result (self.new.slots ≡ self.old.slots) }
        ensures states { (t : ℕ) → (t ≡ slot → ⊥) → slot_at self.new.slots t ≡ slot_at self.old.slots t }
        ensures place { self.new.sweep_index ≡ self.old.sweep_index }
        ensures cells { CellsStay self.old.rows self.new.rows }
        ensures explicit { OnOk result (NamesOnly self.new slot delta.now) }
    {
        let numbers = self.make_numbered(delta.plus())?;
        self.make_live(slot, base, cols);
        self.write(&[Slot(slot)], delta, &numbers);
        Ok(())
    }

    /// Gives the least free slot the graph of the base, changed by the delta and cut to the columns. Where
    /// no slot is free, and only there, all cells are swept first. `AttachFault::PoolFull` where 127 slots are
    /// live; `AttachFault::Memory` for want of memory. After an `Err` no graph has changed.
    pub fn attach(&mut self, base: Base, delta: &Delta, cols: Columns) -> Result<Slot, AttachFault>
        requires { BaseFits self.old base cols }
        ensures slot { IfOk result (λ s. slot_graph self.new s.0 ≡ Some (record { base = base; cols = cols; members = shown (applied delta.now (base_members self.old base)) cols })) }
        ensures fresh { IfOk result (λ s. slot_graph self.old s.0 ≡ None) }
        ensures others { IfOk result (λ s. (t : ℕ) → (t ≡ s.0 → ⊥) → slot_graph self.new t ≡ slot_graph self.old t) }
        ensures now { graph_now self.new ≡ graph_now self.old }
        ensures within { IfOk result (λ s. (1 ≤ s.0) × (s.0 ≤ 127)) }
        ensures least { IfOk result (λ s. (t : ℕ) → 1 ≤ t → t < s.0 → is_free (slot_at self.new.slots t) ≡ false) }
        ensures takes { IfOk result (λ s. TakesSlot self.old self.new s.0) }
        ensures explicit { IfOk result (λ s. NamesOnly self.new s.0 delta.now) }
        ensures full { IsErrOf result AttachFault.PoolFull → AllLive self.old }
        ensures memory { IsErrOf result AttachFault.Memory → AllLive self.old → ⊥ }
        ensures err { OnErr result (SameGraphs self.old self.new) }
        ensures err_sweep { OnErr result ((NoneFree self.old.slots → ⊥) → KeepsSweep self.old self.new × CellsStay self.old.rows self.new.rows) }
    {
        let Some(slot) = self.free_slot() else {
            return Err(AttachFault::PoolFull);
        };
        self.attach_at(slot, base, delta, cols)?;
        Ok(Slot(slot))
    }

    /// Applies the delta to the graph of each of these slots, cut to the slot's columns: one write for each element and
    /// all slots, whatever their number. An `Err` says that memory ran out; then no graph has changed.
    pub fn change(&mut self, slots: &[Slot], delta: &Delta) -> Result<(), AllocError>
        requires { CanChange (numbers_of slots.now) self.old }
        ensures changes { OnOk result (ChangesSlots (numbers_of slots.now) delta.now self.old self.new) }
        ensures states { self.new.slots ≡ self.old.slots }
        ensures place { self.new.sweep_index ≡ self.old.sweep_index }
        ensures cells { CellsStay self.old.rows self.new.rows }
        ensures explicit { NamesNew delta.now self.old.rows self.new.rows }
        ensures err { OnErr result (SameGraphs self.old self.new) }
    {
        let numbers = self.make_numbered(delta.plus())?;
        self.write(slots, delta, &numbers);
        Ok(())
    }

    /// Takes the memory for so many more cells. Nothing changes. An `Err` says that there is none, or that there would be more than 2^32 cells.
    pub fn reserve(&mut self, cells: usize) -> Result<(), AllocError>
        ensures same { self.new ≡ self.old }
        ensures most { OnOk result (cells ≤ 2 ^ 32) }
    {
        self.cells.reserve(cells)
    }

    /// Gives each of the elements a cell. No graph changes. An `Err` says that memory ran out; some may
    /// have got one.
    pub fn make_cells(&mut self, elements: &Set) -> Result<(), AllocError>
        ensures graphs { SameGraphs self.old self.new }
        ensures cells { CellsStay self.old.rows self.new.rows }
        ensures sweep { KeepsSweep self.old self.new }
        ensures there { OnOk result (AllHave self.new.rows elements.now) }
        ensures reuses { OnOk result (Reuses self.old.rows self.new.rows) }
    {
        let _numbers = self.make_numbered(elements)?;
        Ok(())
    }

    /// Gives each element that the events add a cell, so that `apply_now` can take them. No graph changes. An `Err`
    /// says that memory ran out; some may have got one.
    pub fn make_room(&mut self, events: &[Event]) -> Result<(), AllocError>
        ensures graphs { SameGraphs self.old self.new }
        ensures cells { CellsStay self.old.rows self.new.rows }
        ensures sweep { KeepsSweep self.old self.new }
        ensures room { OnOk result (HaveCells self.new.rows events.now) }
        ensures reuses { Reuses self.old.rows self.new.rows }
    {
        let made = add_by_all(&mut self.cells, events);
        self.cells.facts();
        made
    }

    /// The elements of each graph rise, so that it is a set. Does nothing.
    pub fn facts(&self)
        ensures sets { (s : ℕ) → IsSet (members_as (slot_graph self.now s)) }
        ensures now { IsSet (graph_now self.now) }
    {
        let _ = &self.cells;
    }

    /// Whether the current graph has the element.
    pub fn member_now(&self, element: &Element) -> bool
        ensures { result ≡ has (graph_now self.now) element.now }
    {
        self.cells.facts();
        match self.cells.find(element) {
            Some(n) => self.cells.is_current_at(n),
            None => false,
        }
    }

    /// Whether the slot's graph has the element.
    pub fn member(&self, slot: Slot, element: &Element) -> bool
        requires { IsLive self.now slot }
        ensures { result ≡ has (members_as (slot_graph self.now slot.0)) element.now }
    {
        self.cells.facts();
        match self.cells.find(element) {
            Some(n) => has_member(&self.cells, n, element, self.slots[slot.0 as usize], slot.0),
            None => false,
        }
    }

    /// The cursor at the first cell in the order of elements, from which `next_member` goes over a graph.
    pub fn first(&self) -> Cursor
        ensures { (s : ℕ) → members_from self.now s result ≡ members_as (slot_graph self.now s) }
    {
        self.cells.facts();
        self.cells.order_facts();
        self.cells.first()
    }

    /// The cursor from which `next_member` gives the elements that are not before this one.
    pub fn seek(&self, element: &Element) -> Cursor
        ensures { (s : ℕ) → members_from self.now s result ≡ not_before (members_as (slot_graph self.now s)) (Some element.now) }
    {
        self.cells.facts();
        self.cells.order_facts();
        self.cells.seek(element)
    }

    /// The first element of the slot's graph at the cursor or behind it, in the order of elements, and the
    /// cursor from which the next one is to be asked for. `None` where the graph has no element left.
    pub fn next_member(&self, slot: Slot, from: Cursor) -> Option<(Element, Cursor)>
        requires { IsLive self.now slot }
        ensures some { IfSome result (λ m. members_from self.now slot.0 from ≡ m.0 ∷ members_from self.now slot.0 m.1) }
        ensures none { IfNone result (members_from self.now slot.0 from ≡ []) }
    {
        self.cells.facts();
        self.cells.order_facts();
        next_member(&self.cells, self.slots[slot.0 as usize], slot.0, from, None)
    }

    /// As `next_member`, up to an element: `None` where the graph has no element left that does not come behind
    /// `last`. It passes the cells of other graphs up to `last`, and no cell behind the first that comes behind it.
    pub fn next_member_up_to(
        &self,
        slot: Slot,
        from: Cursor,
        last: &Element,
    ) -> Option<(Element, Cursor)>
        requires { IsLive self.now slot }
        ensures some { IfSome result (λ m. members_from self.now slot.0 from ≡ m.0 ∷ members_from self.now slot.0 m.1) }
        ensures within { IfSome result (λ m. before last.now m.0 ≡ false) }
        ensures none { IfNone result (up_to (members_from self.now slot.0 from) (Some last.now) ≡ []) }
    {
        self.cells.facts();
        self.cells.order_facts();
        next_member(
            &self.cells,
            self.slots[slot.0 as usize],
            slot.0,
            from,
            Some(*last),
        )
    }

    /// How many elements of each kind the slot's graph has.
    pub fn counts(&self, slot: Slot) -> Counts
        requires { IsLive self.now slot }
        ensures { result ≡ counts_of (members_as (slot_graph self.now slot.0)) }
    {
        self.counts[slot.0 as usize]
    }

    /// How many elements of each kind the current graph has.
    pub fn counts_now(&self) -> Counts
        ensures { result ≡ counts_of (graph_now self.now) }
    {
        self.counts[0]
    }

    /// How many slots are live.
    pub fn live(&self) -> u32
        ensures { result ≡ live_count self.now }
    {
        count_live(&self.slots)
    }

    /// How many elements have a cell.
    pub fn cell_len(&self) -> u64
        ensures { result ≡ length (cells_of self.now) }
    {
        self.cells.facts();
        count_all(&self.cells)
    }

    /// How many elements the live graphs have together.
    pub fn union_len(&self) -> u64
        ensures { result ≡ length (union_of self.now) }
    {
        self.cells.facts();
        count_needed(&self.cells, &self.slots)
    }
}
