//! A list of numbers, kept in short pieces.
ghost use Rattle.std.specs.Prelude.{◌≡◌, ℕ, ◌+◌, ◌<◌, ◌≤◌, List, [], ◌∷◌, ◌++◌, length, take, drop, OnOk, OnErr, IfOk, MatchOption, slice_index_or};
ghost use Rattle.std.specs.List.{insert, remove, All};
ghost use Rattle.dg_cells.specs.Pieces.{strung, nth_piece, numbers_before, IsHalved, IsPiece, IsPosition};

use std::alloc::{AllocError, Global};
use std::marker::Model;

/// The most numbers that a piece has.
const MOST: usize = 1024;

/// How many numbers stay in a piece that is split.
const HALF: usize = 512;

/// How many numbers a piece has that is made from a list.
const FILLED: usize = 768;

/// A list of numbers, in pieces of 1 to 1,024 of them.
#[derive(Drop)]
pub(crate) struct Pieces {
    pieces: Vec<Vec<u32>>,
}

impl Model for Pieces {
    ghost use Rattle.std.specs.Prelude.{List, ℕ, map};
    ghost use Rattle.std.specs.List.{All};
    ghost use Rattle.dg_cells.specs.Pieces.{IsPiece};

    ghost Value = { List (List ℕ) };

    ghost view = { λ p. map (λ v. v.items) p.pieces.items };

    ghost invariant = { λ p. All IsPiece (map (λ v. v.items) p.pieces.items) };
}

impl Pieces {
    /// No number. Takes no memory yet.
    pub(crate) fn new(alloc: Global) -> Pieces
        ensures { result ≡ [] }
    {
        Pieces {
            pieces: Vec::new(alloc),
        }
    }

    /// How many pieces there are.
    pub(crate) fn len(&self) -> usize
        ensures { result ≡ length self.now }
    {
        self.pieces.len()
    }

    /// Each piece has a number, and 1,024 at most. Does nothing.
    pub(crate) fn facts(&self)
        ensures { All IsPiece self.now }
    {
        let _ = &self.pieces;
    }

    /// The numbers of a piece.
    pub(crate) fn piece(&self, n: usize) -> &[u32]
        requires { n < length self.now }
        ensures value { result.now ≡ nth_piece self.now n }
        ensures piece { IsPiece (nth_piece self.now n) }
    {
        self.pieces[n].as_slice()
    }

    /// The number at a position; none at the end.
    pub(crate) fn number(&self, piece: usize, index: usize) -> Option<u32>
        requires { IsPosition self.now piece index }
        ensures { MatchOption result
            (length (strung self.now) ≡ numbers_before self.now piece + index)
            (λ n. (numbers_before self.now piece + index < length (strung self.now)) × (slice_index_or (strung self.now) (numbers_before self.now piece + index) 0 ≡ n)) }
    {
        if piece < self.pieces.len() {
            Some(self.pieces[piece][index])
        } else {
            None
        }
    }

    // Splits a full piece.
    fn split(&mut self, piece: usize) -> Result<(), AllocError>
        requires piece { piece < length self.old }
        requires full { length (nth_piece self.old piece) ≡ 1024 }
        ensures ok { OnOk result (IsHalved self.old self.new piece) }
        ensures err { OnErr result (self.new ≡ self.old) }
    {
        let alloc = *self.pieces.allocator();
        let mut tail = Vec::with_capacity(alloc, MOST)?;
        tail.extend_from_slice(&self.pieces[piece][HALF..])?;
        self.pieces.insert(piece + 1, tail)?;
        let numbers = &mut self.pieces[piece];
        numbers.truncate(HALF);
        Ok(())
    }

    // Puts a number into a piece that is not full.
    fn insert_within(&mut self, piece: usize, index: usize, number: u32) -> Result<(), AllocError>
        requires piece { piece < length self.old }
        requires index { index ≤ length (nth_piece self.old piece) }
        requires room { length (nth_piece self.old piece) < 1024 }
        ensures ok { OnOk result (strung self.new ≡ insert (strung self.old) (numbers_before self.old piece + index) number) }
        ensures err { OnErr result (self.new ≡ self.old) }
    {
        let numbers = &mut self.pieces[piece];
        numbers.insert(index, number)?;
        Ok(())
    }

    // Puts a piece at the end.
    fn push(&mut self, numbers: &[u32]) -> Result<(), AllocError>
        requires { IsPiece numbers.now }
        ensures ok { OnOk result (self.new ≡ self.old ++ numbers.now ∷ []) }
        ensures err { OnErr result (self.new ≡ self.old) }
    {
        let alloc = *self.pieces.allocator();
        let mut piece = Vec::with_capacity(alloc, MOST)?;
        piece.extend_from_slice(numbers)?;
        self.pieces.push(piece)?;
        Ok(())
    }

    // Puts a number at the end.
    fn append(&mut self, number: u32) -> Result<(), AllocError>
        ensures ok { OnOk result (strung self.new ≡ strung self.old ++ number ∷ []) }
        ensures err { OnErr result (self.new ≡ self.old) }
    {
        let len = self.len();
        if len > 0 {
            let index = self.piece(len - 1).len();
            if index < MOST {
                return self.insert_within(len - 1, index, number);
            }
        }
        self.push(&[number])
    }

    /// Puts a number at a position. An `Err` says that memory ran out, and the numbers are as they were.
    pub(crate) fn insert(
        &mut self,
        piece: usize,
        index: usize,
        number: u32,
    ) -> Result<(), AllocError>
        requires { IsPosition self.old piece index }
        ensures ok { OnOk result (strung self.new ≡ insert (strung self.old) (numbers_before self.old piece + index) number) }
        ensures err { OnErr result (strung self.new ≡ strung self.old) }
    {
        if piece == self.len() {
            return self.append(number);
        }
        if self.piece(piece).len() < MOST {
            return self.insert_within(piece, index, number);
        }
        self.split(piece)?;
        if index <= HALF {
            self.insert_within(piece, index, number)
        } else {
            self.insert_within(piece + 1, index - HALF, number)
        }
    }

    // Takes out one of several numbers of a piece.
    fn remove_within(&mut self, piece: usize, index: usize)
        requires piece { piece < length self.old }
        requires index { index < length (nth_piece self.old piece) }
        requires more { 1 < length (nth_piece self.old piece) }
        ensures { strung self.new ≡ remove (strung self.old) (numbers_before self.old piece + index) }
    {
        let numbers = &mut self.pieces[piece];
        numbers.remove(index);
    }

    // Takes out a piece of one number.
    fn remove_piece(&mut self, piece: usize)
        requires piece { piece < length self.old }
        requires one { length (nth_piece self.old piece) ≡ 1 }
        ensures { strung self.new ≡ remove (strung self.old) (numbers_before self.old piece) }
    {
        self.pieces.remove(piece);
    }

    /// Takes out the number at a position.
    pub(crate) fn remove(&mut self, piece: usize, index: usize)
        requires piece { piece < length self.old }
        requires index { index < length (nth_piece self.old piece) }
        ensures { strung self.new ≡ remove (strung self.old) (numbers_before self.old piece + index) }
    {
        if self.piece(piece).len() > 1 {
            self.remove_within(piece, index);
        } else {
            self.remove_piece(piece);
        }
    }

    /// All numbers in one list. An `Err` says that memory ran out.
    pub(crate) fn numbers(&self) -> Result<Vec<u32>, AllocError>
        ensures { IfOk result (λ numbers. numbers.items ≡ strung self.now) }
    {
        let mut numbers = Vec::new(*self.pieces.allocator());
        for piece in &self.pieces {
            numbers.extend_from_slice(piece)?;
        }
        Ok(numbers)
    }

    /// The numbers of a list. An `Err` says that memory ran out.
    pub(crate) fn of_numbers(alloc: Global, numbers: &[u32]) -> Result<Pieces, AllocError>
        ensures { IfOk result (λ pieces. strung pieces ≡ numbers.now) }
    {
        let mut pieces = Pieces::new(alloc);
        let mut at = 0;
        while at < numbers.len() {
            let end = numbers.len().min(at.saturating_add(FILLED));
            pieces.push(&numbers[at..end])?;
            at = end;
        }
        Ok(pieces)
    }
}
