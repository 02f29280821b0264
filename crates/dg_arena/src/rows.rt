//! Numbered cells.
ghost use Rattle.std.specs.Prelude.{◌≡◌, ℕ, ◌+◌, ◌<◌, ◌≤◌, ◌^◌, [], ◌∷◌, ◌++◌, Some, None, length, slice_index_or, slice_set, IfSome, IfNone, IsSome, OnOk, OnErr};
ghost use Rattle.std.specs.List.{All};
ghost use Rattle.dg_arena.specs.Cells.{cell_at, value_at, has_bit, SetsBit, ClearsBits, WritesWord, Writes, Puts, Reuses, IsNext, lowest};

use crate::cell::{Cell, Link, behind, link_to, live_row};
use crate::columns::{Columns, live_value};
use crate::row::{Row, set_bit, without_bits};
use crate::store::CHUNK;
use std::alloc::{AllocError, Global};
use std::marker::Model;

/// How many cells there are at most: their numbers have 32 bits.
const MOST: usize = 4_294_967_296;

/// Numbered cells, each live, with a value and 256 bits, or vacant. They stand in chunks of raw memory, and stay
/// where they are as more come. Numbers are below 2^32, and those of vacant cells are used again.
#[derive(Drop)]
pub struct Rows<T> {
    cells: Columns<T>,
    len: usize,
    free: Option<u32>,
    spare: usize,
}

impl<T> Model for Rows<T> {
    ghost use Rattle.dg_arena.specs.Cells.{CellMap, map_code, rows_of, taken_next, IsArena};

    ghost Value = { CellMap T };

    ghost coded = { map_code T.code };

    ghost view = { λ r. record { items = rows_of r.cells r.len; spare = r.spare; vacancy = taken_next r.free r.len } };

    ghost invariant = { λ r. IsArena r.cells r.len r.free r.spare };
}

impl<T: Copy> Rows<T> {
    /// No cell. Takes no memory yet.
    pub fn new(alloc: Global) -> Rows<T>
        ensures items { result.items ≡ [] }
        ensures spare { result.spare ≡ 0 }
        ensures vacancy { result.vacancy ≡ 0 }
    {
        Rows {
            cells: Columns::new(alloc),
            len: 0,
            free: None,
            spare: 0,
        }
    }

    /// Where the memory comes from.
    pub fn allocator(&self) -> &Global {
        self.cells.allocator()
    }

    /// All numbers of live cells are below this.
    pub fn len(&self) -> usize
        ensures { result ≡ length self.now.items }
    {
        self.len
    }

    /// Makes room for so many cells that are taken after it. An `Err` says that memory ran out, or that there would
    /// be more than 2^32 cells, and nothing has changed.
    pub fn reserve(&mut self, cells: usize) -> Result<(), AllocError>
        ensures items { self.new.items ≡ self.old.items }
        ensures vacancy { self.new.vacancy ≡ self.old.vacancy }
        ensures spare { self.old.spare ≤ self.new.spare }
        ensures ok { OnOk result (cells ≤ self.new.spare) }
        ensures most { OnOk result (cells ≤ 2 ^ 32) }
        ensures err { OnErr result (self.new ≡ self.old) }
    {
        if cells <= self.spare {
            return Ok(());
        }
        let chunks = (cells - self.spare - 1) / CHUNK + 1;
        if chunks > (MOST - self.cells.len()) / CHUNK {
            return Err(AllocError);
        }
        self.cells.grow(chunks)?;
        self.spare += chunks * CHUNK;
        Ok(())
    }

    /// The number of the cell that is taken next.
    pub fn vacancy(&self) -> usize
        requires { 1 ≤ self.now.spare }
        ensures number { result ≡ self.now.vacancy }
        ensures below { result < 2 ^ 32 }
    {
        match self.free {
            Some(first) => first as usize,
            None => self.len,
        }
    }

    /// Takes a cell with this row, which was vacant or is new. It takes no memory.
    pub fn insert(&mut self, row: Row<T>) -> usize
        requires { 1 ≤ self.old.spare }
        ensures number { result ≡ self.old.vacancy }
        ensures puts { Puts self.old.items self.new.items result row }
        ensures reuses { Reuses self.old.items self.new.items }
        ensures spare { self.new.spare + 1 ≡ self.old.spare }
        ensures behind { self.old.vacancy ≡ length self.old.items → (self.new.items ≡ self.old.items ++ Some row ∷ []) × (self.new.vacancy ≡ length self.new.items) }
    {
        let cell = Cell {
            row,
            link: Link::Live,
        };
        self.spare -= 1;
        match self.free {
            Some(first) => {
                let n = first as usize;
                self.free = behind(self.cells.get(n).link);
                self.cells.write(n, cell);
                n
            }
            None => {
                let n = self.len;
                self.cells.write(n, cell);
                self.len = n + 1;
                n
            }
        }
    }

    /// Takes a cell with this row behind all others, where none of them is vacant. It takes no memory.
    pub fn push(&mut self, row: Row<T>)
        requires room { 1 ≤ self.old.spare }
        requires behind { self.old.vacancy ≡ length self.old.items }
        ensures items { self.new.items ≡ self.old.items ++ Some row ∷ [] }
        ensures vacancy { self.new.vacancy ≡ length self.new.items }
        ensures spare { self.new.spare + 1 ≡ self.old.spare }
    {
        self.spare -= 1;
        self.cells.write(
            self.len,
            Cell {
                row,
                link: Link::Live,
            },
        );
        self.len += 1;
    }

    /// Takes a cell with this value and no bit. It takes no memory.
    pub fn take(&mut self, value: T) -> usize
        requires { 1 ≤ self.old.spare }
        ensures number { result ≡ self.old.vacancy }
        ensures puts { Puts self.old.items self.new.items result (record { element = value; bits = 0 ∷ 0 ∷ 0 ∷ 0 ∷ [] }) }
        ensures reuses { Reuses self.old.items self.new.items }
        ensures spare { self.new.spare + 1 ≡ self.old.spare }
    {
        self.insert(Row {
            element: value,
            bits: [0; 4],
        })
    }

    /// Gives a live cell back. It takes no memory.
    pub fn give(&mut self, n: usize)
        requires { IsSome (cell_at self.old.items n) }
        ensures items { self.new.items ≡ slice_set self.old.items n None }
        ensures spare { self.new.spare ≡ self.old.spare + 1 }
        ensures vacancy { self.new.vacancy ≡ n }
    {
        let row = self.cells.get(n).row;
        let link = link_to(self.free);
        self.cells.write(n, Cell { row, link });
        self.free = Some(n as u32);
        self.spare += 1;
    }

    /// The value of a live cell; none where the cell is vacant or there is none.
    pub fn get(&self, n: usize) -> Option<&T>
        ensures there { IfSome result (λ x. value_at (cell_at self.now.items n) ≡ Some x.now) }
        ensures vacant { IfNone result (cell_at self.now.items n ≡ None) }
    {
        if n < self.len {
            live_value(self.cells.spot(n))
        } else {
            None
        }
    }

    /// What stands in a live cell, copied; none where the cell is vacant or there is none.
    pub fn row_at(&self, n: usize) -> Option<Row<T>>
        ensures { result ≡ cell_at self.now.items n }
    {
        if n < self.len {
            live_row(self.cells.get(n))
        } else {
            None
        }
    }

    /// The least live cell above this one, or the least of all; none if there is no more.
    pub fn next(&self, after: Option<usize>) -> Option<usize>
        ensures found { IfSome result (IsNext self.now.items (lowest after)) }
        ensures none { IfNone result ((m : ℕ) → lowest after ≤ m → cell_at self.now.items m ≡ None) }
    {
        match after {
            Some(n) => {
                if n < self.len {
                    self.next_from(n + 1)
                } else {
                    None
                }
            }
            None => self.next_from(0),
        }
    }

    // The least live cell from there on.
    fn next_from(&self, from: usize) -> Option<usize>
        ensures found { IfSome result (IsNext self.now.items from) }
        ensures none { IfNone result ((m : ℕ) → from ≤ m → cell_at self.now.items m ≡ None) }
    {
        for n in from..self.len {
            if self.get(n).is_some() {
                return Some(n);
            }
        }
        None
    }

    /// Writes the row of a live cell.
    pub fn write(&mut self, n: usize, row: Row<T>)
        requires { IsSome (cell_at self.old.items n) }
        ensures items { self.new.items ≡ slice_set self.old.items n (Some row) }
        ensures spare { self.new.spare ≡ self.old.spare }
        ensures vacancy { self.new.vacancy ≡ self.old.vacancy }
    {
        self.cells.write(
            n,
            Cell {
                row,
                link: Link::Live,
            },
        );
    }

    /// What stands in a live cell, copied.
    pub fn row(&self, n: usize) -> Row<T>
        requires { IsSome (cell_at self.now.items n) }
        ensures { cell_at self.now.items n ≡ Some result }
    {
        match self.row_at(n) {
            Some(row) => row,
            None => unreachable!(),
        }
    }

    /// The value of a live cell.
    pub fn value(&self, n: usize) -> T
        requires { IsSome (cell_at self.now.items n) }
        ensures { IfSome (cell_at self.now.items n) (λ r. result ≡ r.element) }
    {
        match self.get(n) {
            Some(value) => *value,
            None => unreachable!(),
        }
    }

    /// The 256 bits of a live cell, from the lowest on.
    pub fn bits(&self, n: usize) -> [u64; 4]
        requires { IsSome (cell_at self.now.items n) }
        ensures { IfSome (cell_at self.now.items n) (λ r. result ≡ r.bits) }
    {
        self.row(n).bits
    }

    /// One of the four words of bits of a live cell; of the others nothing is read.
    pub fn word(&self, n: usize, index: u8) -> u64
        requires there { IsSome (cell_at self.now.items n) }
        requires index { index < 4 }
        ensures { IfSome (cell_at self.now.items n) (λ r. result ≡ slice_index_or r.bits index 0) }
    {
        self.cells.word(n, index)
    }

    /// Whether a live cell has the bit.
    pub fn bit(&self, n: usize, bit: u8) -> bool
        requires { IsSome (cell_at self.now.items n) }
        ensures { IfSome (cell_at self.now.items n) (λ r. result ≡ has_bit r bit) }
    {
        (self.word(n, bit / 64) >> (bit % 64)) & 1 == 1
    }

    /// Sets a bit of a live cell or puts it off.
    pub fn set_bit(&mut self, n: usize, bit: u8, on: bool)
        requires { IsSome (cell_at self.old.items n) }
        ensures { Writes self.old self.new n (SetsBit bit on) }
    {
        let mut row = self.row(n);
        set_bit(&mut row, bit, on);
        self.write(n, row);
    }

    /// Puts off the bits of a live cell that are set in the mask.
    pub fn clear_mask(&mut self, n: usize, mask: [u64; 4])
        requires { IsSome (cell_at self.old.items n) }
        ensures { Writes self.old self.new n (ClearsBits mask) }
    {
        let row = self.row(n);
        self.write(n, without_bits(row, mask));
    }

    /// Sets the bits that are in `on` in one of the four words of bits of a live cell, and puts off those that are in
    /// `off` alone. Of the value and of the other words nothing is read or written.
    #[inline(always)]
    pub fn write_word(&mut self, n: usize, index: u8, on: u64, off: u64)
        requires there { IsSome (cell_at self.old.items n) }
        requires index { index < 4 }
        ensures { Writes self.old self.new n (WritesWord index on off) }
    {
        self.cells.write_word(n, index, on, off);
    }
}
