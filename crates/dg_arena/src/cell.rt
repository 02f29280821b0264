//! A cell as it lies in memory.
ghost use Rattle.std.specs.Prelude.{◌≡◌, false, Some};
ghost use Rattle.dg_arena.specs.Cells.{shown, behind, is_live};

use crate::row::Row;

/// Whether a cell is live, or which vacant cell comes behind it.
#[derive(Clone, Copy)]
pub enum Link {
    Live,
    Last,
    Next(u32),
}

/// A row, and the cell's place in the list of the vacant ones.
#[derive(Clone, Copy)]
pub struct Cell<T> {
    pub(crate) row: Row<T>,
    pub(crate) link: Link,
}

// The vacant cell behind one.
pub(crate) fn behind(link: Link) -> Option<u32>
    ensures { result ≡ behind link }
{
    match link {
        Link::Next(n) => Some(n),
        Link::Live | Link::Last => None,
    }
}

// The link of a vacant cell before this one.
pub(crate) fn link_to(next: Option<u32>) -> Link
    ensures behind { behind result ≡ next }
    ensures vacant { is_live result ≡ false }
{
    match next {
        Some(n) => Link::Next(n),
        None => Link::Last,
    }
}

// The row of a cell, if it is live.
pub(crate) fn live_row<T: Copy>(cell: Cell<T>) -> Option<Row<T>>
    ensures { result ≡ shown (Some cell) }
{
    match cell.link {
        Link::Live => Some(cell.row),
        Link::Last | Link::Next(_) => None,
    }
}
