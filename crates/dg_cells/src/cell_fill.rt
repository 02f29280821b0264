//! The cells of rising elements, made all at once.
ghost use Rattle.std.specs.Prelude.{◌≡◌, IfOk};
ghost use Rattle.std.specs.List.{range_with_len};
ghost use Rattle.dg_graph.specs.Elements.{IsSet};
ghost use Rattle.dg_cells.specs.Rows.{new_rows};
ghost use Rattle.dg_cells.specs.Pieces.{strung};
ghost use Rattle.dg_cells.specs.Order.{IsListed};

use crate::pieces::Pieces;
use crate::row::new_row;
use dg_arena::Rows;
use dg_graph::Element;
use std::alloc::{AllocError, Global};

// A cell for each of the elements, in their order.
fn new_rows(alloc: Global, items: &[Element], current: bool) -> Result<Rows<Element>, AllocError>
    ensures { IfOk result (λ rows. rows.items ≡ new_rows current items.now) }
{
    let mut rows = Rows::new(alloc);
    rows.reserve(items.len())?;
    for x in items {
        rows.push(new_row(*x, current));
    }
    Ok(rows)
}

// The numbers below this one, in their order.
fn numbers_below(alloc: Global, count: u32) -> Result<Vec<u32>, AllocError>
    ensures { IfOk result (λ numbers. numbers.items ≡ range_with_len 0 count) }
{
    let mut numbers = Vec::with_capacity(alloc, count as usize)?;
    for n in 0..count {
        numbers.push(n)?;
    }
    Ok(numbers)
}

/// A cell for each of the elements, which rise, and the order of their numbers. The current graph has
/// them all or none of them, and no slot has any. An `Err` says that memory ran out, or that there are more
/// than 2^32 - 1 elements.
pub(crate) fn fill(
    alloc: Global,
    items: &[Element],
    current: bool,
) -> Result<(Rows<Element>, Pieces), AllocError>
    requires { IsSet items.now }
    ensures rows { IfOk result (λ both. both.0.items ≡ new_rows current items.now) }
    ensures listed { IfOk result (λ both. IsListed both.0.items (strung both.1)) }
{
    let Ok(count) = u32::try_from(items.len()) else {
        return Err(AllocError);
    };
    let rows = new_rows(alloc, items, current)?;
    let numbers = numbers_below(alloc, count)?;
    let order = Pieces::of_numbers(alloc, &numbers)?;
    Ok((rows, order))
}
