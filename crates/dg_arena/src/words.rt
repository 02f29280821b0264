//! Words beside numbered places, of which none is touched until one is written that is not 0.
ghost use Rattle.std.specs.Prelude.{◌≡◌, ◌≢◌, ℕ, ◌+◌, ◌*◌, ◌<◌, ◌≤◌, ◌^◌, Some, None, [], ◌++◌, length, replicate, slice_index_or, slice_set, OnOk, OnErr};

use crate::store::Store;
use std::alloc::{AllocError, Global};
use std::marker::Model;

/// A word for each of numbered places. Until one is written that is not 0, none stands in memory.
#[derive(Drop)]
pub struct Words {
    places: Store<u64>,
    used: bool,
}

impl Model for Words {
    ghost use Rattle.std.specs.Prelude.{◌≡◌, List, ℕ, true, map};
    ghost use Rattle.dg_arena.specs.Words.{word_of, AreFilled};

    ghost Value = { List ℕ };

    ghost view = { λ w. map (word_of w.used) w.places };

    ghost invariant = { λ w. w.used ≡ true → AreFilled w.places };
}

// Writes 0 into the places from there on.
fn fill(places: &mut Store<u64>, from: usize)
    ensures len { length places.new ≡ length places.old }
    ensures zeros { (m : ℕ) → from ≤ m → m < length places.old → slice_index_or places.new m None ≡ Some 0 }
    ensures kept { (m : ℕ) → m < from → slice_index_or places.new m None ≡ slice_index_or places.old m None }
{
    for n in from..places.len() {
        places.write(n, 0);
    }
}

impl Words {
    /// No place. Takes no memory yet.
    pub(crate) fn new(alloc: Global) -> Words
        ensures { result ≡ [] }
    {
        Words {
            places: Store::new(alloc),
            used: false,
        }
    }

    /// How many places there are.
    pub(crate) fn len(&self) -> usize
        ensures { result ≡ length self.now }
    {
        self.places.len()
    }

    /// Puts this many chunks of places with 0 behind those that are there. An `Err` says that memory ran out, and
    /// nothing has changed.
    pub(crate) fn grow(&mut self, count: usize) -> Result<(), AllocError>
        requires { length self.old + count * 1024 < 2 ^ 64 }
        ensures ok { OnOk result (self.new ≡ self.old ++ replicate (count * 1024) 0) }
        ensures err { OnErr result (self.new ≡ self.old) }
    {
        let from = self.places.len();
        self.places.grow(count)?;
        if self.used {
            fill(&mut self.places, from);
        }
        Ok(())
    }

    /// The word at a place.
    pub(crate) fn word(&self, n: usize) -> u64
        requires { n < length self.now }
        ensures { result ≡ slice_index_or self.now n 0 }
    {
        if self.used { *self.places.get(n) } else { 0 }
    }

    /// Writes a word. Where it is 0 and no other was, nothing is touched.
    pub(crate) fn set(&mut self, n: usize, word: u64)
        requires { n < length self.old }
        ensures { self.new ≡ slice_set self.old n word }
    {
        if self.used {
            self.places.write(n, word);
            return;
        }
        if word == 0 {
            return;
        }
        fill(&mut self.places, 0);
        self.used = true;
        self.places.write(n, word);
    }
}
