//! How the current graph changes, and every other graph stays.
ghost use Rattle.std.specs.Prelude.{◌≡◌, ◌≤◌, true, ◌&&◌, not, Some, IfSome, IfNone};
ghost use Rattle.dg_graph.specs.Effect.{forwards, added_by};
ghost use Rattle.dg_graph.specs.Replay.{replay_from};
ghost use Rattle.dg_graph.specs.Composition.{applied};
ghost use Rattle.dg_cells.specs.Rows.{AllHave, HasCell, Holds, Lacks, cell_at, pair, is_current, Writes};
ghost use Rattle.dg_pool.specs.Graphs.{is_on_now, ListsOnNow, Pins, HaveCells, picked, changed, all_changed};
ghost use Rattle.dg_pool.specs.Current.{IsChangeKnown, TakesTo};

use crate::counts::with_change;
use crate::slots::{SlotState, is_on_now};
use dg_cells::{Cells, Row, is_current, pair};
use dg_delta::Delta;
use dg_event::effect;
use dg_graph::{Element, Event};
use dg_query::Counts;

// Whether the slot rests on the current graph, and says nothing of the cell's element itself.
fn needs_pin(row: &Row, state: SlotState, slot: u8) -> bool
    requires { slot ≤ 127 }
    ensures { result ≡ (is_on_now state && not (pair slot row.now).0) }
{
    is_on_now(state) && !pair(row, slot).0
}

// Writes down what the current graph says of a cell's element, for each slot that rests on it and says
// nothing of the element itself. `row` is what stands in the cell.
fn pin(cells: &mut Cells, slots: &[SlotState; 128], on_now: &[u8], n: usize, row: &Row)
    requires listed { ListsOnNow slots.now on_now.now }
    requires there { cell_at cells.old n ≡ Some row.now }
    ensures { Writes cells.old cells.new n (Pins slots.now) }
{
    let was = is_current(row);
    for slot in on_now {
        if needs_pin(row, slots[*slot as usize], *slot) {
            cells.set_pair(n, *slot, true, was);
        }
    }
}

// Puts the element into the current graph, or takes it out. `found` is the number of its cell. `counts`
// are those of the current graph, and the result those that it has then.
fn change(
    cells: &mut Cells,
    slots: &[SlotState; 128],
    on_now: &[u8],
    counts: Counts,
    found: Option<usize>,
    element: &Element,
    on: bool,
) -> Counts
    requires known { IsChangeKnown slots.now on_now.now counts cells.old }
    requires found { IfSome found (Holds cells.old element.now) }
    requires lacks { IfNone found (Lacks cells.old element.now) }
    requires there { on ≡ true → HasCell cells.old element.now }
    ensures { TakesTo (changed on element.now (picked is_current cells.old)) slots.now cells.old cells.new result }
{
    cells.facts();
    let Some(n) = found else {
        return counts;
    };
    let Some(row) = cells.row(n) else {
        return counts;
    };
    if is_current(&row) == on {
        return counts;
    }
    pin(cells, slots, on_now, n, &row);
    cells.set_current(n, on);
    // no graph has more elements than there are cells, so the counts fit
    let _most = cells.len();
    with_change(counts, element, on)
}

// Takes the current graph past the event.
fn pass(
    cells: &mut Cells,
    slots: &[SlotState; 128],
    on_now: &[u8],
    counts: Counts,
    event: &Event,
) -> Counts
    requires known { IsChangeKnown slots.now on_now.now counts cells.old }
    requires there { IfSome (added_by event.now.body) (HasCell cells.old) }
    ensures { TakesTo (forwards (picked is_current cells.old) event.now) slots.now cells.old cells.new result }
{
    let (removed, added) = effect(event);
    let mut passed = counts;
    if let Some(element) = removed {
        let found = cells.find(&element);
        passed = change(cells, slots, on_now, passed, found, &element, false);
    }
    if let Some(element) = added {
        let found = cells.find(&element);
        passed = change(cells, slots, on_now, passed, found, &element, true);
    }
    passed
}

/// Takes the current graph past the events, one after another.
pub(crate) fn pass_all(
    cells: &mut Cells,
    slots: &[SlotState; 128],
    on_now: &[u8],
    counts: Counts,
    events: &[Event],
) -> Counts
    requires known { IsChangeKnown slots.now on_now.now counts cells.old }
    requires there { HaveCells cells.old events.now }
    ensures { TakesTo (replay_from (picked is_current cells.old) events.now) slots.now cells.old cells.new result }
{
    let mut passed = counts;
    for event in events {
        passed = pass(cells, slots, on_now, passed, event);
    }
    passed
}

/// Puts each of the elements into the current graph, or takes each out, and is quickest where they rise.
/// `counts` are those of the current graph, and the result those that it has then.
pub(crate) fn change_all(
    cells: &mut Cells,
    slots: &[SlotState; 128],
    on_now: &[u8],
    counts: Counts,
    items: &[Element],
    on: bool,
) -> Counts
    requires known { IsChangeKnown slots.now on_now.now counts cells.old }
    requires there { on ≡ true → AllHave cells.old items.now }
    ensures { TakesTo (all_changed on items.now (picked is_current cells.old)) slots.now cells.old cells.new result }
{
    let mut passed = counts;
    let mut near = cells.first();
    for element in items {
        let (found, cursor) = cells.find_near(near, element);
        near = cursor;
        passed = change(cells, slots, on_now, passed, found, element, on);
    }
    passed
}

/// Takes the current graph on by the delta.
pub(crate) fn pass_delta(
    cells: &mut Cells,
    slots: &[SlotState; 128],
    on_now: &[u8],
    counts: Counts,
    delta: &Delta,
) -> Counts
    requires known { IsChangeKnown slots.now on_now.now counts cells.old }
    requires there { AllHave cells.old delta.now.plus }
    ensures { TakesTo (applied delta.now (picked is_current cells.old)) slots.now cells.old cells.new result }
{
    let left = change_all(cells, slots, on_now, counts, delta.minus().items(), false);
    change_all(cells, slots, on_now, left, delta.plus().items(), true)
}
