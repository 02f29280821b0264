//! How cells come and go, with their numbers in the order.
ghost use Rattle.std.specs.Prelude.{◌≡◌, ℕ, ◌+◌, ◌<◌, false, List, [], Option, Some, None, length, slice_index_or, slice_set, IfSome, IfNone, IfOk, OnOk, OnErr, IsSome};
ghost use Rattle.dg_graph.specs.Elements.{has};
ghost use Rattle.dg_cells.specs.Rows.{Row, cell_at, Holds, Lacks, CellsGrow, Reuses, AreNumbers, AreAmong};
ghost use Rattle.dg_cells.specs.Pieces.{strung, numbers_before, IsPosition};
ghost use Rattle.dg_cells.specs.Order.{elements_in, IsLower, IsListed};

use crate::pieces::Pieces;
use crate::positions::{Position, START, behind, element, seek, stands_at};
use crate::row::bare;
use dg_arena::Rows;
use dg_event::compare;
use dg_graph::Element;
use std::alloc::AllocError;

/// The number of the element's cell, which stands at this position if it has one.
pub(crate) fn number_at(
    rows: &Rows<Element>,
    order: &Pieces,
    position: Position,
    x: &Element,
) -> Option<u32>
    requires listed { IsListed rows.now.items (strung order.now) }
    requires position { IsPosition order.now position.piece position.index }
    requires lower { IsLower x.now (elements_in rows.now.items (strung order.now)) (numbers_before order.now position.piece + position.index) }
    ensures found { IfSome result (Holds rows.now.items x.now) }
    ensures inside { IsSome result → position.piece < length order.now }
    ensures number { IfSome result (λ n. (numbers_before order.now position.piece + position.index < length (strung order.now)) × (slice_index_or (strung order.now) (numbers_before order.now position.piece + position.index) 0 ≡ n)) }
    ensures lacks { IfNone result (Lacks rows.now.items x.now) }
    ensures absent { IfNone result (has (elements_in rows.now.items (strung order.now)) x.now ≡ false) }
{
    match order.number(position.piece, position.index) {
        Some(n) => {
            if compare(x, &element(rows, n as usize)).is_eq() {
                Some(n)
            } else {
                None
            }
        }
        None => None,
    }
}

// The number of the element's cell, which does not stand at `near`, and where to look for a later element.
#[inline(never)]
fn search(
    rows: &Rows<Element>,
    order: &Pieces,
    near: Position,
    x: &Element,
) -> (Option<u32>, Position)
    requires { IsListed rows.now.items (strung order.now) }
    ensures found { IfSome result.0 (Holds rows.now.items x.now) }
    ensures lacks { IfNone result.0 (Lacks rows.now.items x.now) }
{
    let position = seek(rows, order, near, x);
    match number_at(rows, order, position, x) {
        Some(n) => (Some(n), behind(position)),
        None => (None, position),
    }
}

/// The number of the element's cell, and where to look for a later element. It takes the fewer steps the less the cell is
/// behind `near`, and the fewest where it stands there: then the loop that asks has it without a call.
#[inline(always)]
pub(crate) fn find(
    rows: &Rows<Element>,
    order: &Pieces,
    near: Position,
    x: &Element,
) -> (Option<u32>, Position)
    requires { IsListed rows.now.items (strung order.now) }
    ensures found { IfSome result.0 (Holds rows.now.items x.now) }
    ensures lacks { IfNone result.0 (Lacks rows.now.items x.now) }
{
    if let Some(n) = stands_at(rows, order, near, x) {
        return (Some(n), behind(near));
    }
    search(rows, order, near, x)
}

/// The numbers of the elements' cells, but for those that have none, and how many these are; quickest where the elements
/// rise. An `Err` says that memory ran out.
pub(crate) fn find_each(
    rows: &Rows<Element>,
    order: &Pieces,
    items: &[Element],
) -> Result<(Vec<u32>, usize), AllocError>
    requires { IsListed rows.now.items (strung order.now) }
    ensures { IfOk result (λ found. found.1 ≡ 0 → AreNumbers rows.now.items items.now found.0.items) }
{
    let mut numbers = Vec::with_capacity(*rows.allocator(), items.len())?;
    let mut lacking = 0;
    let mut near = START;
    for x in items {
        let (number, behind) = find(rows, order, near, x);
        match number {
            Some(n) => numbers.push(n)?,
            None => lacking += 1,
        }
        near = behind;
    }
    Ok((numbers, lacking))
}

/// Gives the element a cell with no bit, unless it has one, and answers where to look for the next, and the
/// number of the cell. It takes the fewer steps the less it is behind `near`. An `Err` says that memory ran out or that all
/// numbers of 32 bits are in use, and no cell has changed.
pub(crate) fn add(
    rows: &mut Rows<Element>,
    order: &mut Pieces,
    near: Position,
    x: &Element,
) -> Result<(Position, u32), AllocError>
    requires { IsListed rows.old.items (strung order.old) }
    ensures listed { IsListed rows.new.items (strung order.new) }
    ensures grows { CellsGrow rows.old.items rows.new.items }
    ensures there { IfOk result (λ both. Holds rows.new.items x.now both.1) }
    ensures fresh { (n : ℕ) (r : Row) → cell_at rows.old.items n ≡ None → cell_at rows.new.items n ≡ Some r → r.element ≡ x.now }
    ensures reuses { Reuses rows.old.items rows.new.items }
    ensures err { OnErr result (rows.new.items ≡ rows.old.items) }
{
    if let Some(n) = stands_at(rows, order, near, x) {
        return Ok((behind(near), n));
    }
    let position = seek(rows, order, near, x);
    if let Some(n) = number_at(rows, order, position, x) {
        return Ok((behind(position), n));
    }
    rows.reserve(1)?;
    let n = rows.vacancy() as u32;
    order.insert(position.piece, position.index, n)?;
    rows.insert(bare(*x));
    Ok((behind(position), n))
}

/// Gives each of the elements a cell with no bit, unless it has one; quickest where they rise. Writes down the
/// numbers of their cells. An `Err` says that memory ran out or that all numbers of 32 bits are in use; some
/// elements may have got a cell.
pub(crate) fn add_each(
    rows: &mut Rows<Element>,
    order: &mut Pieces,
    items: &[Element],
    numbers: &mut Vec<u32>,
) -> Result<(), AllocError>
    requires listed { IsListed rows.old.items (strung order.old) }
    requires none { numbers.old.items ≡ [] }
    ensures listed { IsListed rows.new.items (strung order.new) }
    ensures grows { CellsGrow rows.old.items rows.new.items }
    ensures numbers { OnOk result (AreNumbers rows.new.items items.now numbers.new.items) }
    ensures among { AreAmong rows.old.items rows.new.items items.now }
    ensures reuses { Reuses rows.old.items rows.new.items }
{
    let mut near = START;
    for x in items {
        let (behind, number) = add(rows, order, near, x)?;
        numbers.push(number)?;
        near = behind;
    }
    Ok(())
}

/// Takes the number of an occupied cell out of the order, and answers it.
pub(crate) fn unlist(rows: &Rows<Element>, order: &mut Pieces, n: usize) -> u32
    requires listed { IsListed rows.now.items (strung order.old) }
    requires there { IsSome (cell_at rows.now.items n) }
    ensures number { result ≡ n }
    ensures listed { IsListed (slice_set rows.now.items n None) (strung order.new) }
{
    let x = element(rows, n);
    let position = seek(rows, order, START, &x);
    let Some(number) = number_at(rows, order, position, &x) else {
        unreachable!()
    };
    order.remove(position.piece, position.index);
    number
}
