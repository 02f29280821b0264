//! A cell's element and its bits.
ghost use Rattle.std.specs.Prelude.{◌≡◌, ◌≤◌, ◌/◌, slice_index_or};
ghost use Rattle.dg_cells.specs.Rows.{Row, is_current, pair, SetsCurrent, SetsPair, IsBare, new_row};

use dg_arena::{has_bit, set_bit};
use dg_graph::Element;

/// An element, and 256 bits that say in which graphs it is.
pub type Row = dg_arena::Row<Element>;

/// Whether the current graph has the element.
pub fn is_current(row: &Row) -> bool
    ensures { result ≡ is_current row.now }
{
    has_bit(row, 0)
}

/// The two bits of the slot.
pub fn pair(row: &Row, slot: u8) -> (bool, bool)
    requires { slot ≤ 127 }
    ensures { result ≡ pair slot row.now }
{
    (has_bit(row, 2 * slot), has_bit(row, 2 * slot + 1))
}

/// The two bits of the slot in the word that has them.
pub(crate) fn word_pair(word: u64, slot: u8) -> (bool, bool)
    requires { slot ≤ 127 }
    ensures { (r : Row) → word ≡ slice_index_or r.bits (slot / 32) 0 → result ≡ pair slot r }
{
    let low = 2 * (slot % 32);
    ((word >> low) & 1 == 1, (word >> (low + 1)) & 1 == 1)
}

/// Sets the bit of the current graph or puts it off.
pub fn set_current(row: &mut Row, on: bool)
    ensures { SetsCurrent on row.old row.new }
{
    set_bit(row, 0, on);
}

/// Writes these two bits of the slot.
pub fn set_pair(row: &mut Row, slot: u8, explicit: bool, own: bool)
    requires low { 1 ≤ slot }
    requires high { slot ≤ 127 }
    ensures { SetsPair slot (explicit, own) row.old row.new }
{
    set_bit(row, 2 * slot, explicit);
    set_bit(row, 2 * slot + 1, own);
}

/// A cell with no bit.
pub fn bare(element: Element) -> Row
    ensures element { result.element ≡ element }
    ensures bare { IsBare result }
{
    Row {
        element,
        bits: [0; 4],
    }
}

/// A cell that the current graph has, or no graph.
pub fn new_row(element: Element, current: bool) -> Row
    ensures { result ≡ new_row current element }
{
    Row {
        element,
        bits: [u64::from(current), 0, 0, 0],
    }
}
