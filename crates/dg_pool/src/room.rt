//! How elements get cells.
ghost use Rattle.std.specs.Prelude.{◌≡◌, true, OnOk, IfOk, IfSome};
ghost use Rattle.dg_graph.specs.Effect.{added_by};
ghost use Rattle.dg_graph.specs.Elements.{IsSet};
ghost use Rattle.dg_cells.specs.Rows.{CellsGrow, Reuses, HasCell, AllHave, AreNumbers, CellsAreApart};
ghost use Rattle.dg_pool.specs.Graphs.{HaveCells};

use dg_cells::Cells;
use dg_event::effect;
use dg_graph::{Element, Event};
use std::alloc::AllocError;

/// Gives each of the elements, which rise, a cell, and answers the numbers of their cells. An `Err` says that
/// memory ran out; some may have got one.
pub(crate) fn make_rising(cells: &mut Cells, items: &[Element]) -> Result<Vec<u32>, AllocError>
    requires { IsSet items.now }
    ensures grows { CellsGrow cells.old cells.new }
    ensures there { OnOk result (AllHave cells.new items.now) }
    ensures numbers { IfOk result (λ numbers. AreNumbers cells.new items.now numbers.items) }
    ensures apart { CellsAreApart cells.new }
    ensures reuses { OnOk result (Reuses cells.old cells.new) }
{
    let made = cells.add_numbered(items);
    cells.facts();
    made
}

// Gives the element that the event adds, if it adds one, a cell.
fn add_by(cells: &mut Cells, event: &Event) -> Result<(), AllocError>
    ensures grows { CellsGrow cells.old cells.new }
    ensures there { OnOk result (IfSome (added_by event.now.body) (HasCell cells.new)) }
    ensures reuses { Reuses cells.old cells.new }
{
    match effect(event).1 {
        Some(element) => cells.add(element),
        None => Ok(()),
    }
}

/// Gives each element that the events add a cell. An `Err` says that memory ran out; some may have got
/// one.
pub(crate) fn add_by_all(cells: &mut Cells, events: &[Event]) -> Result<(), AllocError>
    ensures grows { CellsGrow cells.old cells.new }
    ensures there { OnOk result (HaveCells cells.new events.now) }
    ensures reuses { Reuses cells.old cells.new }
{
    for event in events {
        add_by(cells, event)?;
    }
    Ok(())
}
