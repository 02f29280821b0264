//! Numbered places for cells, in columns: the values with their links in one, and each word of bits in one of its own.
ghost use Rattle.std.specs.Prelude.{◌≡◌, ℕ, ◌+◌, ◌*◌, ◌<◌, ◌≤◌, ◌^◌, List, Some, None, [], ◌++◌, length, replicate, slice_index_or, slice_set, IsSome, IfSome, IfNone, OnOk, OnErr};
ghost use Rattle.dg_arena.specs.Cells.{shown, value_at, WritesWord};
ghost use Rattle.dg_arena.specs.Columns.{cell_with, masked, RewritesRow};

use crate::cell::{Cell, Link};
use crate::row::Row;
use crate::store::{CHUNK, Store};
use crate::words::Words;
use std::alloc::{AllocError, Global};
use std::marker::Model;

/// A value, and its cell's place in the list of the vacant ones.
#[derive(Clone, Copy)]
pub struct Spot<T> {
    pub(crate) value: T,
    pub(crate) link: Link,
}

/// Numbered places, each with a cell or without. The words of bits that no cell uses take no memory that is touched.
#[derive(Drop)]
pub struct Columns<T> {
    spots: Store<Spot<T>>,
    first: Words,
    second: Words,
    third: Words,
    fourth: Words,
}

impl<T> Model for Columns<T> {
    ghost use Rattle.std.specs.Prelude.{◌≤◌, List, Option, length};
    ghost use Rattle.dg_arena.specs.declared.cell.Cell.{Cell};
    ghost use Rattle.dg_arena.specs.Columns.{cells_of, cells_code};

    ghost Value = { List (Option (Cell T)) };

    ghost coded = { cells_code T.code };

    ghost view = { λ c. cells_of c.spots c.first c.second c.third c.fourth };

    ghost invariant = { λ c. (length c.spots ≤ length c.first) × (length c.spots ≤ length c.second) × (length c.spots ≤ length c.third) × (length c.spots ≤ length c.fourth) };
}

// Makes a column of words at least so long. An `Err` says that memory ran out. No word changes.
fn lengthen(words: &mut Words, len: usize) -> Result<(), AllocError>
    requires { len < 2 ^ 63 }
    ensures ok { OnOk result (len ≤ length words.new) }
    ensures longer { length words.old ≤ length words.new }
    ensures same { (n : ℕ) → slice_index_or words.new n 0 ≡ slice_index_or words.old n 0 }
{
    let had = words.len();
    if len <= had {
        return Ok(());
    }
    words.grow((len - had) / CHUNK + 1)
}

// Writes a word with the bits of `on`, and without those of `off` alone. Where neither has a bit, nothing is read.
#[inline(always)]
fn write_word(words: &mut Words, n: usize, on: u64, off: u64)
    requires { n < length words.old }
    ensures { words.new ≡ slice_set words.old n (masked on off (slice_index_or words.old n 0)) }
{
    if on | off == 0 {
        return;
    }
    let word = words.word(n);
    words.set(n, (word & !off) | on);
}

// The value of a cell, if it is live.
pub(crate) fn live_value<T>(spot: &Spot<T>) -> Option<&T>
    ensures there { IfSome result (λ x. (bits : List ℕ) → value_at (shown (cell_with (Some spot.now) bits)) ≡ Some x.now) }
    ensures vacant { IfNone result ((bits : List ℕ) → shown (cell_with (Some spot.now) bits) ≡ None) }
{
    match spot.link {
        Link::Live => Some(&spot.value),
        Link::Last | Link::Next(_) => None,
    }
}

impl<T: Copy> Columns<T> {
    /// No place. Takes no memory yet.
    pub(crate) fn new(alloc: Global) -> Columns<T>
        ensures { result ≡ [] }
    {
        Columns {
            spots: Store::new(alloc),
            first: Words::new(alloc),
            second: Words::new(alloc),
            third: Words::new(alloc),
            fourth: Words::new(alloc),
        }
    }

    /// Puts this many chunks of places without cells behind those that are there. An `Err` says that memory ran out,
    /// and no cell has changed.
    pub(crate) fn grow(&mut self, count: usize) -> Result<(), AllocError>
        requires { length self.old + count * 1024 < 2 ^ 63 }
        ensures ok { OnOk result (self.new ≡ self.old ++ replicate (count * 1024) None) }
        ensures err { OnErr result (self.new ≡ self.old) }
    {
        let len = self.spots.len() + count * CHUNK;
        lengthen(&mut self.first, len)?;
        lengthen(&mut self.second, len)?;
        lengthen(&mut self.third, len)?;
        lengthen(&mut self.fourth, len)?;
        self.spots.grow(count)
    }

    /// How many places there are.
    pub(crate) fn len(&self) -> usize
        ensures { result ≡ length self.now }
    {
        self.spots.len()
    }

    /// Writes a cell into a place.
    pub(crate) fn write(&mut self, n: usize, cell: Cell<T>)
        requires { n < length self.old }
        ensures { self.new ≡ slice_set self.old n (Some cell) }
    {
        let Cell { row, link } = cell;
        let Row { element, bits } = row;
        self.spots.write(
            n,
            Spot {
                value: element,
                link,
            },
        );
        self.first.set(n, bits[0]);
        self.second.set(n, bits[1]);
        self.third.set(n, bits[2]);
        self.fourth.set(n, bits[3]);
    }

    /// The cell that stands in a place.
    pub(crate) fn get(&self, n: usize) -> Cell<T>
        requires { IsSome (slice_index_or self.now n None) }
        ensures { slice_index_or self.now n None ≡ Some result }
    {
        let Spot { value, link } = *self.spots.get(n);
        Cell {
            row: Row {
                element: value,
                bits: [
                    self.first.word(n),
                    self.second.word(n),
                    self.third.word(n),
                    self.fourth.word(n),
                ],
            },
            link,
        }
    }
    /// Where the memory comes from.
    pub(crate) fn allocator(&self) -> &Global {
        self.spots.allocator()
    }

    /// The value and the link of the cell in a place. Of its bits nothing is read.
    pub(crate) fn spot(&self, n: usize) -> &Spot<T>
        requires { IsSome (slice_index_or self.now n None) }
        ensures { (bits : List ℕ) × (slice_index_or self.now n None ≡ cell_with (Some result.now) bits) }
    {
        self.spots.get(n)
    }

    /// One word of the bits of the cell in a place.
    pub(crate) fn word(&self, n: usize, index: u8) -> u64
        requires there { IsSome (slice_index_or self.now n None) }
        requires index { index < 4 }
        ensures { IfSome (slice_index_or self.now n None) (λ c. result ≡ slice_index_or c.row.bits index 0) }
    {
        match index {
            0 => self.first.word(n),
            1 => self.second.word(n),
            2 => self.third.word(n),
            _ => self.fourth.word(n),
        }
    }
    /// Sets the bits that are in `on` in one word of the bits of the cell in a place, and puts off those that are in
    /// `off` alone. Of the other words and the value nothing is read or written.
    #[inline(always)]
    pub(crate) fn write_word(&mut self, n: usize, index: u8, on: u64, off: u64)
        requires there { IsSome (slice_index_or self.old n None) }
        requires index { index < 4 }
        ensures { RewritesRow self.old self.new n (WritesWord index on off) }
    {
        match index {
            0 => write_word(&mut self.first, n, on, off),
            1 => write_word(&mut self.second, n, on, off),
            2 => write_word(&mut self.third, n, on, off),
            _ => write_word(&mut self.fourth, n, on, off),
        }
    }
}
