//! What the slots of the pool are.
ghost use Rattle.std.specs.Prelude.{◌≡◌, ◌≢◌, ℕ, ◌<◌, ◌≤◌, true, false, map, length, take, count_by, IfSome, IfNone};
ghost use Rattle.dg_pool.specs.declared.slots.SlotState.TheVariants as states;
ghost use Rattle.dg_pool.specs.Graphs.{slot_at, is_live, is_on_now, AreSlots, ListsOnNow};
ghost use Rattle.dg_pool.specs.Sweeps.{begun, ended, started};
ghost use Rattle.dg_pool.specs.Slots.{rests_on, IsLeastOn, NoneOn, is_free, IsLeastFree, NoneFree};

use dg_graph::Columns;

/// The number of a slot of the pool, 1 to 127.
#[derive(Clone, Copy, Debug, PartialEq, Eq)]
pub struct Slot(pub u8);

/// What the graph of a slot rests on: its elements are those of the base, but for what the slot's own
/// bits say.
#[derive(Clone, Copy, PartialEq, Eq)]
pub enum Base {
    /// Nothing: no element.
    Nothing,
    /// The current graph.
    Now,
    /// Another slot, which rests on nothing.
    Slot(Slot),
}

/// What a slot is used for.
#[derive(Clone, Copy, PartialEq, Eq)]
pub enum SlotState {
    /// It may be given.
    Free,
    /// It was released. Where `swept`, it was so when the present sweep began.
    Released { swept: bool },
    /// It has a graph.
    Live { base: Base, cols: Columns },
}

/// Slots that are all free.
pub(crate) fn all_free() -> [SlotState; 128]
    ensures count { length result ≡ 128 }
    ensures free { (s : ℕ) → slot_at result s ≡ states.Free }
{
    [SlotState::Free; 128]
}

fn begun(slot: SlotState) -> SlotState
    ensures { result ≡ begun slot }
{
    match slot {
        SlotState::Released { .. } => SlotState::Released { swept: true },
        _ => slot,
    }
}

fn ended(slot: SlotState) -> SlotState
    ensures { result ≡ ended slot }
{
    match slot {
        SlotState::Released { swept: true } => SlotState::Free,
        _ => slot,
    }
}

/// A sweep begins: all released slots are to be freed by it.
pub(crate) fn begin(slots: &mut [SlotState; 128])
    ensures slots { (s : ℕ) → slot_at slots.new s ≡ begun (slot_at slots.old s) }
    ensures count { length slots.new ≡ 128 }
{
    for slot in 0..128u8 {
        slots[slot as usize] = begun(slots[slot as usize]);
    }
}

/// A sweep begins, where none stands at an index.
pub(crate) fn start(slots: &mut [SlotState; 128], sweep_index: usize)
    ensures slots { (s : ℕ) → slot_at slots.new s ≡ started sweep_index (slot_at slots.old s) }
    ensures count { length slots.new ≡ 128 }
{
    if sweep_index == 0 {
        begin(slots);
    }
}

/// A sweep ends.
pub(crate) fn end(slots: &mut [SlotState; 128])
    ensures slots { (s : ℕ) → slot_at slots.new s ≡ ended (slot_at slots.old s) }
    ensures count { length slots.new ≡ 128 }
{
    for slot in 0..128u8 {
        slots[slot as usize] = ended(slots[slot as usize]);
    }
}

fn rests_on(state: SlotState, slot: u8) -> bool
    ensures { result ≡ rests_on slot state }
{
    match state {
        SlotState::Live {
            base: Base::Slot(b),
            ..
        } => b.0 == slot,
        _ => false,
    }
}

/// The least slot that rests on this one.
pub(crate) fn least_on(slots: &[SlotState; 128], slot: u8) -> Option<u8>
    ensures some { IfSome result (IsLeastOn slots.now slot) }
    ensures none { IfNone result (NoneOn slots.now slot) }
{
    for other in 0..128u8 {
        if rests_on(slots[other as usize], slot) {
            return Some(other);
        }
    }
    None
}

fn is_free(state: SlotState) -> bool
    ensures { result ≡ is_free state }
{
    match state {
        SlotState::Free => true,
        _ => false,
    }
}

/// The least free slot.
pub(crate) fn least_free(slots: &[SlotState; 128]) -> Option<u8>
    ensures some { IfSome result (IsLeastFree slots.now) }
    ensures none { IfNone result (NoneFree slots.now) }
{
    for slot in 1..128u8 {
        if is_free(slots[slot as usize]) {
            return Some(slot);
        }
    }
    None
}

fn is_live(state: SlotState) -> bool
    ensures { result ≡ is_live state }
{
    match state {
        SlotState::Live { .. } => true,
        _ => false,
    }
}

/// How many slots are live.
pub(crate) fn count_live(slots: &[SlotState; 128]) -> u32
    ensures { result ≡ count_by is_live slots.now }
{
    let mut count = 0;
    for state in slots {
        if is_live(*state) {
            count += 1;
        }
    }
    count
}

/// Whether the slot rests on the current graph.
pub(crate) fn is_on_now(state: SlotState) -> bool
    ensures { result ≡ is_on_now state }
{
    match state {
        SlotState::Live { base, .. } => base == Base::Now,
        _ => false,
    }
}

/// The slots that rest on the current graph, and how many they are.
pub(crate) fn list_on_now(slots: &[SlotState; 128]) -> ([u8; 128], usize)
    requires { AreSlots slots.now }
    ensures within { result.1 ≤ 128 }
    ensures listed { ListsOnNow slots.now (take result.1 result.0) }
{
    let mut numbers = [0; 128];
    let mut len = 0;
    for slot in 1..128u8 {
        if is_on_now(slots[slot as usize]) {
            numbers[len] = slot;
            len += 1;
        }
    }
    (numbers, len)
}
