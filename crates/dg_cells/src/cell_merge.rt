//! Many cells at once, by one walk over the order.
ghost use Rattle.std.specs.Prelude.{◌≡◌, ℕ, ◌+◌, ◌<◌, ◌≤◌, true, false, cond, List, Some, None, [], ◌∷◌, ◌++◌, length, slice_index_or, IfOk, OnOk, OnErr};
ghost use Rattle.dg_graph.specs.Elements.{IsSet};
ghost use Rattle.dg_cells.specs.Rows.{Row, cell_at, CellsGrow, Reuses, AreNumbers, AreAmong, IsBare};
ghost use Rattle.dg_cells.specs.Pieces.{strung};
ghost use Rattle.dg_cells.specs.Order.{cell_element, AreCells, IsListed, Puts, is_noted, AreNoted};

use crate::pieces::Pieces;
use crate::positions::seek_on;
use crate::row::bare;
use dg_arena::Rows;
use dg_graph::Element;
use std::alloc::AllocError;

// Gives the element a new cell, whose number is noted. An `Err` says that there is none, and all is as
// it was.
fn cell_for(rows: &mut Rows<Element>, taken: &mut Vec<u32>, x: &Element) -> Result<u32, AllocError>
    ensures puts { IfOk result (λ n. (r : Row) × (r.element ≡ x.now) × IsBare r × Puts rows.old.items rows.new.items n r) }
    ensures noted { IfOk result (λ n. taken.new.items ≡ taken.old.items ++ n ∷ []) }
    ensures reuses { Reuses rows.old.items rows.new.items }
    ensures err_rows { OnErr result (rows.new.items ≡ rows.old.items) }
    ensures err_taken { OnErr result (taken.new.items ≡ taken.old.items) }
{
    rows.reserve(1)?;
    let n = rows.vacancy() as u32;
    taken.push(n)?;
    rows.insert(bare(*x));
    Ok(n)
}

// Vacates the cells with these numbers, which are free again.
fn vacate(rows: &mut Rows<Element>, taken: &[u32])
    ensures { (n : ℕ) → cell_at rows.new.items n ≡ cond (is_noted taken.now n) None (cell_at rows.old.items n) }
{
    for n in taken {
        let at = *n as usize;
        if rows.get(at).is_some() {
            rows.give(at);
        }
    }
}

// Gives each of the rising elements a cell, by one walk over the numbers in order, and writes down the
// numbers of their cells. Answers the order with the numbers of the new cells, which are noted. An `Err` says
// that memory ran out; some elements may have got a cell.
fn merge_numbers(
    rows: &mut Rows<Element>,
    order: &[u32],
    taken: &mut Vec<u32>,
    items: &[Element],
    numbers: &mut Vec<u32>,
) -> Result<Vec<u32>, AllocError>
    requires listed { IsListed rows.old.items order.now }
    requires items { IsSet items.now }
    requires none { taken.old.items ≡ [] }
    requires no_numbers { numbers.old.items ≡ [] }
    ensures listed { IfOk result (λ out. IsListed rows.new.items out.items) }
    ensures numbers { OnOk result (AreNumbers rows.new.items items.now numbers.new.items) }
    ensures among { AreAmong rows.old.items rows.new.items items.now }
    ensures grows { CellsGrow rows.old.items rows.new.items }
    ensures noted { AreNoted rows.old.items rows.new.items taken.new.items }
    ensures reuses { OnOk result (Reuses rows.old.items rows.new.items) }
{
    let alloc = *numbers.allocator();
    let mut out = Vec::with_capacity(alloc, order.len().saturating_add(items.len()))?;
    let mut i = 0;
    let mut near = 0;
    for x in items {
        let (at, there) = seek_on(rows, order, near, x);
        if there {
            numbers.push(order[at])?;
            near = at + 1;
        } else {
            out.extend_from_slice(&order[i..at])?;
            let number = cell_for(rows, taken, x)?;
            out.push(number)?;
            numbers.push(number)?;
            i = at;
            near = at;
        }
    }
    out.extend_from_slice(&order[i..])?;
    Ok(out)
}

// The same, with the order in pieces.
fn merge_pieces(
    rows: &mut Rows<Element>,
    order: &[u32],
    taken: &mut Vec<u32>,
    items: &[Element],
    numbers: &mut Vec<u32>,
) -> Result<Pieces, AllocError>
    requires listed { IsListed rows.old.items order.now }
    requires items { IsSet items.now }
    requires none { taken.old.items ≡ [] }
    requires no_numbers { numbers.old.items ≡ [] }
    ensures listed { IfOk result (λ pieces. IsListed rows.new.items (strung pieces)) }
    ensures numbers { OnOk result (AreNumbers rows.new.items items.now numbers.new.items) }
    ensures among { AreAmong rows.old.items rows.new.items items.now }
    ensures grows { CellsGrow rows.old.items rows.new.items }
    ensures noted { AreNoted rows.old.items rows.new.items taken.new.items }
    ensures reuses { OnOk result (Reuses rows.old.items rows.new.items) }
{
    let alloc = *numbers.allocator();
    let merged = merge_numbers(rows, order, taken, items, numbers)?;
    Pieces::of_numbers(alloc, &merged)
}

/// Gives each of the rising elements a cell with no bit, unless it has one, by one walk over the order, and
/// writes down the numbers of their cells. An `Err` says that memory ran out or that all numbers of 32 bits are in use, and no cell has come.
pub(crate) fn merge(
    rows: &mut Rows<Element>,
    order: &mut Pieces,
    items: &[Element],
    numbers: &mut Vec<u32>,
) -> Result<(), AllocError>
    requires listed { IsListed rows.old.items (strung order.old) }
    requires items { IsSet items.now }
    requires none { numbers.old.items ≡ [] }
    ensures listed { IsListed rows.new.items (strung order.new) }
    ensures grows { CellsGrow rows.old.items rows.new.items }
    ensures numbers { OnOk result (AreNumbers rows.new.items items.now numbers.new.items) }
    ensures among { AreAmong rows.old.items rows.new.items items.now }
    ensures reuses { OnOk result (Reuses rows.old.items rows.new.items) }
{
    let listed = order.numbers()?;
    let mut taken = Vec::new(*numbers.allocator());
    match merge_pieces(rows, &listed, &mut taken, items, numbers) {
        Ok(pieces) => {
            *order = pieces;
            Ok(())
        }
        Err(fault) => {
            vacate(rows, &taken);
            Err(fault)
        }
    }
}
