//! How many cells there are, and how many of them are needed.
ghost use Rattle.std.specs.Prelude.{◌≡◌, true, length};
ghost use Rattle.dg_cells.specs.Rows.{Row, CellsAreApart};
ghost use Rattle.dg_pool.specs.Graphs.{AreSlots, picked};
ghost use Rattle.dg_pool.specs.Sweeps.{is_needed};

use crate::masks::masks_of;
use crate::slots::SlotState;
use crate::sweep::is_needed;
use dg_cells::Cells;

/// How many cells there are.
pub(crate) fn count_all(cells: &Cells) -> u64
    requires { CellsAreApart cells.now }
    ensures { result ≡ length (picked (λ (r : Row). true) cells.now) }
{
    let mut count = 0;
    for n in 0..cells.len() {
        if cells.is_occupied(n) {
            count += 1;
        }
    }
    count
}

/// How many cells are needed.
pub(crate) fn count_needed(cells: &Cells, slots: &[SlotState; 128]) -> u64
    requires slots { AreSlots slots.now }
    requires apart { CellsAreApart cells.now }
    ensures { result ≡ length (picked (is_needed slots.now) cells.now) }
{
    let masks = masks_of(slots);
    let mut count = 0;
    for n in 0..cells.len() {
        if let Some(row) = cells.row(n) {
            if is_needed(&row, &masks) {
                count += 1;
            }
        }
    }
    count
}
