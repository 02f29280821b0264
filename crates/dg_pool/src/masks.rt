//! Masks over the 256 bits of a cell, which tell of all slots at once.
ghost use Rattle.std.specs.Prelude.{◌≡◌, ℕ, ◌+◌, ◌*◌, ◌<◌, ◌==◌, true, false, ◌&&◌, ◌||◌, length};
ghost use Rattle.std.specs.Int.{bit_at};
ghost use Rattle.dg_cells.specs.Rows.{pair, word_bit};
ghost use Rattle.dg_pool.specs.Masks.{is_asking, IsAskingMask, IsSweptMask, AreMasks};
ghost use Rattle.dg_pool.specs.Sweeps.{is_swept};

use crate::slots::SlotState;
use dg_cells::Row;
use dg_event::asks;
use dg_graph::Column;

/// The masks by which a sweep passes a cell.
#[derive(Drop)]
pub(crate) struct Masks {
    // the explicit bits of the live slots that ask for a column
    pub(crate) structure: [u64; 4],
    pub(crate) node_attr: [u64; 4],
    pub(crate) edge_attr: [u64; 4],
    pub(crate) transient: [u64; 4],
    // both bits of the slots that the sweep clears
    pub(crate) swept: [u64; 4],
}

/// Whether the slot is live, and asks for the column.
pub(crate) fn is_asking(state: SlotState, column: Column) -> bool
    ensures { result ≡ is_asking column state }
{
    match state {
        SlotState::Live { cols, .. } => asks(cols, column),
        _ => false,
    }
}

fn is_swept(state: SlotState) -> bool
    ensures { result ≡ is_swept state }
{
    match state {
        SlotState::Released { swept } => swept,
        _ => false,
    }
}

/// Sets a bit of the mask.
pub(crate) fn put_bit(mask: &mut [u64; 4], bit: u8)
    ensures len { length mask.new ≡ 4 }
    ensures bits { (c : ℕ) → word_bit mask.new c ≡ (c == bit || word_bit mask.old c) }
{
    mask[(bit / 64) as usize] |= 1 << (bit % 64);
}

/// The place of the lowest bit of a word that has some, and the word without it.
#[inline(always)]
pub(crate) fn split_lowest(word: u64) -> (u32, u64)
    requires { 0 < word }
    ensures place { result.0 < 64 }
    ensures set { bit_at word result.0 ≡ 1 }
    ensures off { bit_at result.1 result.0 ≡ 0 }
    ensures others { (i : ℕ) → i < 64 → (i ≡ result.0 → ⊥) → bit_at result.1 i ≡ bit_at word i }
    ensures less { result.1 < word }
{
    let lowest = word.trailing_zeros();
    (lowest, word & !(1 << lowest))
}

// The explicit bits of the live slots that ask for the column.
fn asking_mask(slots: &[SlotState; 128], column: Column) -> [u64; 4]
    ensures { IsAskingMask column slots.now result }
{
    let mut mask = [0; 4];
    for slot in 0..128u8 {
        if is_asking(slots[slot as usize], column) {
            put_bit(&mut mask, 2 * slot);
        }
    }
    mask
}

// Both bits of the slots that the sweep clears.
fn swept_mask(slots: &[SlotState; 128]) -> [u64; 4]
    ensures { IsSweptMask slots.now result }
{
    let mut mask = [0; 4];
    for slot in 0..128u8 {
        if is_swept(slots[slot as usize]) {
            put_bit(&mut mask, 2 * slot);
            put_bit(&mut mask, 2 * slot + 1);
        }
    }
    mask
}

/// The masks of these slots.
pub(crate) fn masks_of(slots: &[SlotState; 128]) -> Masks
    ensures { AreMasks slots.now result }
{
    Masks {
        structure: asking_mask(slots, Column::Structure),
        node_attr: asking_mask(slots, Column::NodeAttr),
        edge_attr: asking_mask(slots, Column::EdgeAttr),
        transient: asking_mask(slots, Column::Transient),
        swept: swept_mask(slots),
    }
}

/// Whether some slot, of which the mask has the explicit bit, has both its bits in the cell.
pub(crate) fn meets(row: &Row, mask: &[u64; 4]) -> bool
    requires { (s : ℕ) → s < 128 → word_bit mask.now (2 * s + 1) ≡ false }
    ensures some { result ≡ true → (s : ℕ) × (s < 128) × (word_bit mask.now (2 * s) ≡ true) × (pair s row.now ≡ (true, true)) }
    ensures none { result ≡ false → (s : ℕ) → s < 128 → word_bit mask.now (2 * s) ≡ true → ((pair s row.now).0 && (pair s row.now).1) ≡ false }
{
    for word in 0..4usize {
        let bits = row.bits[word];
        if bits & (bits >> 1) & mask[word] != 0 {
            return true;
        }
    }
    false
}
