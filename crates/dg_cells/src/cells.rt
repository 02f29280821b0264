//! The cells of the pool.
ghost use Rattle.std.specs.Prelude.{◌≡◌, ℕ, ◌<◌, ◌≤◌, ◌==◌, Bool, true, false, List, Option, Some, None, [], ◌∷◌, ◌++◌, length, IfSome, IfNone, IsSome, is_some, IfOk, OnErr, OnOk, slice_set};
ghost use Rattle.dg_cells.specs.Rows.{Row, cell_at, is_current, pair, Writes, SetsCurrent, SetsPair, ClearsBits, WritesWord, Holds, Lacks, CellsAreApart, CellsGrow, Reuses, HasCell, AllHave, AreNumbers, AreAmong, new_rows};
ghost use Rattle.std.specs.Prelude.{◌+◌, ◌^◌, min, slice_get, slice_index_or};
ghost use Rattle.dg_graph.specs.Elements.{IsSet};
ghost use Rattle.dg_cells.specs.Order.{IsLower, cell_element};
ghost use Rattle.dg_cells.specs.Cursors.{ordered, ordered_elements, cursor_index};
ghost use Rattle.std.specs.Option.{option_map};

use crate::cell_fill::fill;
use crate::cell_merge::merge;
use crate::cursors::{self, Cursor};
use crate::listing::{add, add_each, find_each, number_at, unlist};
use crate::pieces::Pieces;
use crate::positions::{START, seek};
use crate::row::{Row, set_current, set_pair, word_pair};
use dg_arena::{Rows, without_bits};
use dg_graph::Element;
use std::alloc::{AllocError, Global};
use std::marker::Model;

/// A list of numbered cells, each with an element of its own, or vacant. The numbers of the occupied
/// ones are kept in the order of their elements, and vacated numbers are used again.
#[derive(Drop)]
pub struct Cells {
    rows: Rows<Element>,
    order: Pieces,
}

impl Model for Cells {
    ghost use Rattle.std.specs.Prelude.{List, Option};
    ghost use Rattle.dg_cells.specs.Rows.{Row};

    ghost Value = { List (Option Row) };

    ghost use Rattle.dg_cells.specs.Pieces.{strung};
    ghost use Rattle.dg_cells.specs.Order.{IsListed};

    ghost view = { λ cells. cells.rows.items };

    ghost invariant = { λ cells. IsListed cells.rows.items (strung cells.order) };
}

/// One walk over all cells gives new ones where more elements lack a cell than one for so many cells.
const MANY: usize = 64;

impl Cells {
    /// No cell. Takes no memory yet.
    pub fn new(alloc: Global) -> Cells
        ensures { result ≡ [] }
    {
        Cells {
            rows: Rows::new(alloc),
            order: Pieces::new(alloc),
        }
    }

    /// A cell for each of the elements, which rise, in their order. The current graph has them all, or no
    /// graph has any. An `Err` says that memory ran out, or that there are more than 2^32 - 1 elements.
    pub fn from_rising(alloc: Global, items: &[Element], current: bool) -> Result<Cells, AllocError>
        requires { IsSet items.now }
        ensures { IfOk result (λ cells. cells ≡ new_rows current items.now) }
    {
        let (rows, order) = fill(alloc, items, current)?;
        Ok(Cells { rows, order })
    }

    /// No element has two cells. Does nothing.
    pub fn facts(&self)
        ensures { CellsAreApart self.now }
    {
        let _ = &self.rows;
    }

    /// All numbers of cells are below this.
    pub fn len(&self) -> usize
        ensures { result ≡ length self.now }
    {
        self.rows.len()
    }

    /// The number of the element's cell.
    pub fn find(&self, element: &Element) -> Option<usize>
        ensures found { IfSome result (Holds self.now element.now) }
        ensures lacks { IfNone result (Lacks self.now element.now) }
    {
        let position = seek(&self.rows, &self.order, START, element);
        match number_at(&self.rows, &self.order, position, element) {
            Some(n) => Some(n as usize),
            None => None,
        }
    }

    /// What stands in the cell; none where it is vacant or there is no such cell.
    pub fn row(&self, n: usize) -> Option<Row>
        ensures { result ≡ cell_at self.now n }
    {
        self.rows.row_at(n)
    }

    /// Whether there is such a cell and it is occupied.
    pub fn is_occupied(&self, n: usize) -> bool
        ensures { result ≡ is_some (cell_at self.now n) }
    {
        self.rows.get(n).is_some()
    }

    /// The element of the cell; none where it is vacant or there is no such cell. Of the bits nothing is read.
    pub fn element(&self, n: usize) -> Option<&Element>
        ensures there { IfSome result (λ x. cell_element (cell_at self.now n) ≡ Some x.now) }
        ensures vacant { IfNone result (cell_at self.now n ≡ None) }
    {
        self.rows.get(n)
    }

    /// Whether the current graph has the element of an occupied cell.
    pub fn is_current_at(&self, n: usize) -> bool
        requires { IsSome (cell_at self.now n) }
        ensures { IfSome (cell_at self.now n) (λ r. result ≡ is_current r) }
    {
        self.rows.bit(n, 0)
    }

    /// The two bits of the slot in an occupied cell. One of its four words is read.
    pub fn pair_at(&self, n: usize, slot: u8) -> (bool, bool)
        requires there { IsSome (cell_at self.now n) }
        requires high { slot ≤ 127 }
        ensures { IfSome (cell_at self.now n) (λ r. result ≡ pair slot r) }
    {
        word_pair(self.rows.word(n, slot / 32), slot)
    }

    /// One of the four words of bits of an occupied cell. The slots from `32 * index` on have their bits in it.
    #[inline(always)]
    pub fn word(&self, n: usize, index: u8) -> u64
        requires there { IsSome (cell_at self.now n) }
        requires index { index < 4 }
        ensures { IfSome (cell_at self.now n) (λ r. result ≡ slice_index_or r.bits index 0) }
    {
        self.rows.word(n, index)
    }

    /// Writes whether the current graph has the element of an occupied cell.
    pub fn set_current(&mut self, n: usize, on: bool)
        requires { IsSome (cell_at self.old n) }
        ensures { Writes self.old self.new n (SetsCurrent on) }
    {
        let mut row = self.rows.row(n);
        set_current(&mut row, on);
        self.rows.write(n, row);
    }

    /// Writes the two bits of a slot in an occupied cell.
    pub fn set_pair(&mut self, n: usize, slot: u8, explicit: bool, own: bool)
        requires there { IsSome (cell_at self.old n) }
        requires low { 1 ≤ slot }
        requires high { slot ≤ 127 }
        ensures { Writes self.old self.new n (SetsPair slot (explicit, own)) }
    {
        let mut row = self.rows.row(n);
        set_pair(&mut row, slot, explicit, own);
        self.rows.write(n, row);
    }

    /// The 256 bits of an occupied cell, from the lowest on.
    pub fn bits(&self, n: usize) -> [u64; 4]
        requires { IsSome (cell_at self.now n) }
        ensures { IfSome (cell_at self.now n) (λ r. result ≡ r.bits) }
    {
        self.rows.bits(n)
    }

    /// Puts off the bits of an occupied cell that are set in the mask.
    pub fn clear(&mut self, n: usize, mask: [u64; 4])
        requires { IsSome (cell_at self.old n) }
        ensures { Writes self.old self.new n (ClearsBits mask) }
    {
        let row = self.rows.row(n);
        self.rows.write(n, without_bits(row, mask));
    }

    /// Sets the bits that are in `on` in one of the four words of an occupied cell, and puts off those that are in `off`
    /// alone: one write for any number of slots. Of the other words nothing is read or written.
    #[inline(always)]
    pub fn write_word(&mut self, n: usize, index: u8, on: u64, off: u64)
        requires there { IsSome (cell_at self.old n) }
        requires index { index < 4 }
        ensures { Writes self.old self.new n (WritesWord index on off) }
    {
        self.rows.write_word(n, index, on, off);
    }

    /// Vacates the cell. Its number is used again. Takes no memory.
    pub fn give(&mut self, n: usize)
        requires { n < length self.old }
        ensures { self.new ≡ slice_set self.old n None }
    {
        if self.rows.get(n).is_some() {
            unlist(&self.rows, &mut self.order, n);
            self.rows.give(n);
        }
    }

    /// Gives the element a cell with no bit, unless it has a cell. An `Err` says that memory ran out, or
    /// that there are 2^32 cells, and nothing has changed.
    pub fn add(&mut self, element: Element) -> Result<(), AllocError>
        ensures grows { CellsGrow self.old self.new }
        ensures there { OnOk result (HasCell self.new element) }
        ensures fresh { (n : ℕ) (r : Row) → cell_at self.old n ≡ None → cell_at self.new n ≡ Some r → r.element ≡ element }
        ensures reuses { Reuses self.old self.new }
        ensures err { OnErr result (self.new ≡ self.old) }
    {
        add(&mut self.rows, &mut self.order, START, &element)?;
        Ok(())
    }

    /// Takes the memory for so many more cells. No cell comes. An `Err` says that there is none, or that there would
    /// be more than 2^32 cells.
    pub fn reserve(&mut self, more: usize) -> Result<(), AllocError>
        ensures same { self.new ≡ self.old }
        ensures most { OnOk result (more ≤ 2 ^ 32) }
    {
        self.rows.reserve(more)
    }

    // As `add_numbered`, where so many of the elements have no cell.
    fn add_missing(&mut self, items: &[Element], lacking: usize) -> Result<Vec<u32>, AllocError>
        requires { IsSet items.now }
        ensures grows { CellsGrow self.old self.new }
        ensures numbers { IfOk result (λ numbers. AreNumbers self.new items.now numbers.items) }
        ensures there { OnOk result (AllHave self.new items.now) }
        ensures among { AreAmong self.old self.new items.now }
        ensures reuses { OnOk result (Reuses self.old self.new) }
    {
        let mut numbers = Vec::with_capacity(*self.rows.allocator(), items.len())?;
        if lacking > self.rows.len() / MANY {
            merge(&mut self.rows, &mut self.order, items, &mut numbers)?;
        } else {
            add_each(&mut self.rows, &mut self.order, items, &mut numbers)?;
        }
        Ok(numbers)
    }

    /// Gives each of the elements, which rise, a cell with no bit, unless it has a cell, and answers the numbers of
    /// their cells, in the order of the elements. An `Err` says that memory ran out, or that there are 2^32 cells;
    /// some elements may have got a cell.
    pub fn add_numbered(&mut self, items: &[Element]) -> Result<Vec<u32>, AllocError>
        requires { IsSet items.now }
        ensures grows { CellsGrow self.old self.new }
        ensures numbers { IfOk result (λ numbers. AreNumbers self.new items.now numbers.items) }
        ensures there { OnOk result (AllHave self.new items.now) }
        ensures among { AreAmong self.old self.new items.now }
        ensures reuses { OnOk result (Reuses self.old self.new) }
    {
        let (numbers, lacking) = find_each(&self.rows, &self.order, items)?;
        if lacking == 0 {
            return Ok(numbers);
        }
        self.add_missing(items, lacking)
    }

    /// The elements of the occupied cells rise in their order, in which each occupied cell stands, and
    /// nothing else. Does nothing.
    pub fn order_facts(&self)
        ensures rises { IsSet (ordered_elements self.now) }
        ensures all { (n : ℕ) (r : Row) → cell_at self.now n ≡ Some r → (k : ℕ) × (slice_get (ordered self.now) k ≡ Some r) }
        ensures only { (k : ℕ) (r : Row) → slice_get (ordered self.now) k ≡ Some r → (n : ℕ) × (cell_at self.now n ≡ Some r) }
    {
        let _ = &self.rows;
    }

    /// The cursor at the first of the occupied cells in the order of their elements.
    pub fn first(&self) -> Cursor
        ensures { cursor_index self.now result ≡ 0 }
    {
        cursors::first(&self.rows, &self.order)
    }

    /// The cursor at the first occupied cell whose element is not before this one. O(log n).
    pub fn seek(&self, element: &Element) -> Cursor
        ensures { IsLower element.now (ordered_elements self.now) (cursor_index self.now result) }
    {
        self.seek_near(self.first(), element)
    }

    /// The cursor that `seek` gives. It takes the fewer steps the less it is behind `near`, which may be
    /// any cursor.
    pub fn seek_near(&self, near: Cursor, element: &Element) -> Cursor
        ensures { IsLower element.now (ordered_elements self.now) (cursor_index self.now result) }
    {
        cursors::seek_from(&self.rows, &self.order, near, element)
    }

    /// The number of the element's cell, and the cursor from which to look for a later element. It takes the fewer steps
    /// the less the cell is behind `near`, which may be any cursor, and the fewest where it is the next one.
    #[inline(always)]
    pub fn find_near(&self, near: Cursor, element: &Element) -> (Option<usize>, Cursor)
        ensures found { IfSome result.0 (Holds self.now element.now) }
        ensures lacks { IfNone result.0 (Lacks self.now element.now) }
    {
        match cursors::find_from(&self.rows, &self.order, near, element) {
            (Some(n), behind) => (Some(n as usize), behind),
            (None, behind) => (None, behind),
        }
    }

    /// The number of the cell at which the cursor stands; none past the last occupied cell.
    pub fn at(&self, cursor: Cursor) -> Option<usize>
        ensures found { IfSome result (λ n. slice_get (ordered self.now) (cursor_index self.now cursor) ≡ cell_at self.now n) }
        ensures there { IfSome result (λ n. IsSome (cell_at self.now n)) }
        ensures number { IfSome result (λ n. cursor.cell ≡ Some n) }
        ensures end { IfNone result (cursor_index self.now cursor ≡ length (ordered self.now)) }
    {
        cursors::at(&self.rows, &self.order, cursor)
    }

    /// The cursor at the next occupied cell in the order of the elements. O(1), unless cells came or went
    /// since the cursor was made, and O(log n) then.
    pub fn after(&self, cursor: Cursor) -> Cursor
        ensures { cursor_index self.now result ≡ min (cursor_index self.now cursor + 1) (length (ordered self.now)) }
    {
        cursors::after(&self.rows, &self.order, cursor)
    }

    /// The number of the cell at which the cursor stands, and the cursor that `after` gives; none past the last
    /// occupied cell. O(1), unless cells came or went since the cursor was made, and O(log n) then.
    pub fn step_number(&self, cursor: Cursor) -> Option<(usize, Cursor)>
        ensures found { IfSome result (λ s. slice_get (ordered self.now) (cursor_index self.now cursor) ≡ cell_at self.now s.0) }
        ensures there { IfSome result (λ s. IsSome (cell_at self.now s.0)) }
        ensures next { IfSome result (λ s. cursor_index self.now s.1 ≡ min (cursor_index self.now cursor + 1) (length (ordered self.now))) }
        ensures end { IfNone result (cursor_index self.now cursor ≡ length (ordered self.now)) }
    {
        cursors::step_number(&self.rows, &self.order, cursor)
    }
}
