//! Sweeps: the bits of slots that were released are cleared, and cells that no live graph needs given
//! back.
ghost use Rattle.std.specs.Prelude.{◌≡◌, ℕ, ◌+◌, ◌<◌, ◌≤◌, List, IsSome, Some, length, IfSome};
ghost use Rattle.dg_cells.specs.Rows.{cell_at};
ghost use Rattle.dg_pool.specs.declared.slots.SlotState.{SlotState};
ghost use Rattle.dg_pool.specs.Graphs.{AreSlots};
ghost use Rattle.dg_pool.specs.Sweeps.{is_needed, CellsSwept, cells_below};
ghost use Rattle.dg_pool.specs.Masks.{AreMasks};

use crate::masks::{Masks, masks_of, meets};
use crate::slots::SlotState;
use dg_cells::{Cells, Row, is_current};
use dg_event::column_of;
use dg_graph::Column;

/// Whether some live graph needs the cell.
pub(crate) fn is_needed(row: &Row, masks: &Masks) -> bool
    requires { (slots : List SlotState) × AreMasks slots masks.now }
    ensures { (slots : List SlotState) → AreSlots slots → AreMasks slots masks.now → result ≡ is_needed slots row.now }
{
    if is_current(row) {
        return true;
    }
    match column_of(&row.element) {
        Column::Structure => meets(row, &masks.structure),
        Column::NodeAttr => meets(row, &masks.node_attr),
        Column::EdgeAttr => meets(row, &masks.edge_attr),
        Column::Transient => meets(row, &masks.transient),
    }
}

// Passes one cell.
fn sweep_cell(cells: &mut Cells, masks: &Masks, n: usize)
    requires masks { (slots : List SlotState) × AreMasks slots masks.now }
    requires within { n < length cells.old }
    ensures swept { (slots : List SlotState) → AreSlots slots → AreMasks slots masks.now → CellsSwept slots cells.old cells.new n (n + 1) }
    ensures len { length cells.new ≡ length cells.old }
{
    if let Some(row) = cells.row(n) {
        if is_needed(&row, masks) {
            cells.clear(n, masks.swept);
        } else {
            cells.give(n);
        }
    }
}

/// Passes the next cells from a number on, so many of them or all that are left. Answers the number of
/// the first cell that is left, or one past all.
pub(crate) fn sweep(cells: &mut Cells, slots: &[SlotState; 128], from: usize, count: u64) -> usize
    requires { AreSlots slots.now }
    ensures swept { CellsSwept slots.now cells.old cells.new from result }
    ensures len { length cells.new ≡ length cells.old }
    ensures low { from ≤ result }
    ensures more { result < length cells.old → cells_below cells.old result ≡ cells_below cells.old from + count }
    ensures left { result < length cells.old → IsSome (cell_at cells.new result) }
    ensures most { cells_below cells.old result ≤ cells_below cells.old from + count }
{
    let masks = masks_of(slots);
    let mut n = from;
    let mut left = count;
    while n < cells.len() {
        if cells.is_occupied(n) {
            if left == 0 {
                return n;
            }
            sweep_cell(cells, &masks, n);
            left -= 1;
        }
        n += 1;
    }
    n
}
