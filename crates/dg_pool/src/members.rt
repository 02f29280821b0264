//! Which graphs have the element of a cell, and walks over the cells of a graph in the order of elements.
ghost use Rattle.std.specs.Prelude.{◌≡◌, ◌≤◌, false, Some, [], ◌∷◌, IsSome, IfSome, IfNone};
ghost use Rattle.dg_graph.specs.declared.element.Columns.{Columns};
ghost use Rattle.dg_pool.specs.declared.slots.Base.TheVariants as bases;
ghost use Rattle.dg_pool.specs.declared.slots.Slot.{Slot};
ghost use Rattle.dg_pool.specs.declared.slots.SlotState.TheVariants as states;
ghost use Rattle.dg_cells.specs.Rows.{cell_at};
ghost use Rattle.dg_cells.specs.Order.{cell_element};
ghost use Rattle.dg_pool.specs.Graphs.{in_base};
ghost use Rattle.dg_pool.specs.Sweeps.{in_state};
ghost use Rattle.dg_pool.specs.Listing.{is_behind, passing_from, up_to};

use crate::slots::{Base, SlotState};
use dg_cells::{Cells, Cursor};
use dg_event::{asks, column_of, compare};
use dg_graph::Element;

/// Whether the base has the element of an occupied cell, by the bits alone.
pub(crate) fn in_base(cells: &Cells, n: usize, base: Base) -> bool
    requires there { IsSome (cell_at cells.now n) }
    requires slot { (b : Slot) → base ≡ bases.Slot b → b.0 ≤ 127 }
    ensures { IfSome (cell_at cells.now n) (λ r. result ≡ in_base base r) }
{
    match base {
        Base::Nothing => false,
        Base::Now => cells.is_current_at(n),
        Base::Slot(b) => {
            let (explicit, own) = cells.pair_at(n, b.0);
            explicit && own
        }
    }
}

/// Whether the slot's graph has the element, which stands in the cell.
pub(crate) fn has_member(
    cells: &Cells,
    n: usize,
    element: &Element,
    state: SlotState,
    slot: u8,
) -> bool
    requires element { cell_element (cell_at cells.now n) ≡ Some element.now }
    requires slot { slot ≤ 127 }
    requires base { (b : Slot) (cols : Columns) → state ≡ states.Live (bases.Slot b) cols → b.0 ≤ 127 }
    ensures { IfSome (cell_at cells.now n) (λ r. result ≡ in_state slot state r) }
{
    match state {
        SlotState::Live { base, cols } => {
            if !asks(cols, column_of(element)) {
                return false;
            }
            let (explicit, own) = cells.pair_at(n, slot);
            if explicit {
                own
            } else {
                in_base(cells, n, base)
            }
        }
        _ => false,
    }
}

// Whether the element comes behind the last one that is asked for.
fn is_behind(last: Option<Element>, element: &Element) -> bool
    ensures { result ≡ is_behind last element.now }
{
    match last {
        Some(last) => compare(&last, element).is_lt(),
        None => false,
    }
}

/// The first element at the cursor or behind it that the slot's graph has, and the cursor behind its cell. The
/// walk ends at the first cell whose element comes behind `last`, where there is one.
pub(crate) fn next_member(
    cells: &Cells,
    state: SlotState,
    slot: u8,
    from: Cursor,
    last: Option<Element>,
) -> Option<(Element, Cursor)>
    requires slot { slot ≤ 127 }
    requires base { (b : Slot) (cols : Columns) → state ≡ states.Live (bases.Slot b) cols → b.0 ≤ 127 }
    ensures some { IfSome result (λ m. passing_from (in_state slot state) cells.now from ≡ m.0 ∷ passing_from (in_state slot state) cells.now m.1) }
    ensures within { IfSome result (λ m. is_behind last m.0 ≡ false) }
    ensures none { IfNone result (up_to (passing_from (in_state slot state) cells.now from) last ≡ []) }
{
    cells.order_facts();
    let mut cursor = from;
    while let Some((n, behind)) = cells.step_number(cursor) {
        let Some(element) = cells.element(n) else {
            unreachable!()
        };
        if is_behind(last, element) {
            return None;
        }
        if has_member(cells, n, element, state, slot) {
            return Some((*element, behind));
        }
        cursor = behind;
    }
    None
}
