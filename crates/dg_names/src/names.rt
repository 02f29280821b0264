//! The list of names of a history: distinct texts, each found by its number and its number by it.
ghost use Rattle.std.specs.Prelude.{◌≡◌, ◌≤◌, ◌<◌, ℕ, List, [], length, take, None, Some, not, is_some, slice_get, option_copied, IsTrue, ◌↔◌, IfOk, IfSome, IfNone, OnOk, OnErr};
ghost use Rattle.std.specs.List.{IsDistinct, Contains};
ghost use Rattle.std.specs.Str.{bytes_eq};
ghost use Rattle.dg_text.specs.Names.{number_of, added};
ghost use Rattle.dg_names.specs.NameLimits.{AreFew, AreShort};

use dg_seed::Seed;
use dg_text::{NAME_BYTES_MAX, NAMES_MAX};
use indexmap::IndexSet;
use std::alloc::{AllocError, Global};
use std::marker::Model;

/// A list of names, seen as the list of their texts. They are distinct, each has at most
/// `NAME_BYTES_MAX` bytes, and there are at most `NAMES_MAX`. The number of a name is its index in the list.
#[derive(Drop)]
pub struct Names {
    texts: IndexSet<Vec<u8>, Seed>,
}

impl Model for Names {
    ghost use Rattle.std.specs.Prelude.{ℕ, List, map};
    ghost use Rattle.dg_names.specs.NameLimits.{AreFew, AreShort};

    ghost Value = { List (List ℕ) };

    ghost view = { λ names. map (λ text. text.items) names.texts.keys };

    ghost invariant = { λ names. let texts : List (List ℕ) = map (λ text. text.items) names.texts.keys in AreFew texts × AreShort texts };
}

impl Names {
    /// A list with no names, whose memory comes from `alloc` and whose look-ups hash with the seed. Takes no memory yet.
    pub fn new(alloc: Global, seed: Seed) -> Names
        ensures { result ≡ [] }
    {
        Names {
            texts: IndexSet::with_hasher(alloc, seed),
        }
    }

    /// The seed with which its look-ups hash.
    pub fn seed(&self) -> Seed {
        *self.texts.hasher()
    }

    /// How many names the list has.
    pub fn len(&self) -> u32
        ensures len { result ≡ length self.now }
        ensures few { result ≤ NAMES_MAX }
    {
        self.texts.len() as u32
    }

    /// Whether the list has no names.
    pub fn is_empty(&self) -> bool
        ensures { IsTrue result ↔ (self.now ≡ []) }
    {
        self.texts.is_empty()
    }

    /// What holds of each list of names. Does nothing.
    pub fn facts(&self)
        ensures few { AreFew self.now }
        ensures short { AreShort self.now }
        ensures distinct { IsDistinct bytes_eq self.now }
        ensures number { (n : ℕ) (text : List ℕ) → slice_get self.now n ≡ Some text → number_of self.now text ≡ Some n }
        ensures one_number { (m n : ℕ) (text : List ℕ) → slice_get self.now m ≡ Some text → slice_get self.now n ≡ Some text → m ≡ n }
    {
        // Its clauses tell that the texts are distinct.
        self.texts.len();
    }

    /// The number of a text, or `None` where it is not in the list. One look-up by hash.
    pub fn number(&self, text: &[u8]) -> Option<u32>
        ensures number { result ≡ number_of self.now text.now }
        ensures found { IfSome result (λ n. slice_get self.now n ≡ Some text.now) }
        ensures within { IfSome result (λ n. n < length self.now) }
        ensures lacks { IfNone result (¬ Contains self.now text.now) }
    {
        let number = self.texts.get_index_of(text)?;
        Some(number as u32)
    }

    /// The text of a number, or `None` where the list has no such number.
    pub fn text(&self, number: u32) -> Option<&[u8]>
        ensures text { option_copied result ≡ slice_get self.now number }
        ensures short { IfSome result (λ text. length text.now ≤ NAME_BYTES_MAX) }
    {
        let text = self.texts.get_index(number as usize)?;
        Some(text.as_slice())
    }

    /// The number of the text, which is appended where it is not in the list yet. A text that is
    /// there takes no memory. An `Err` says that memory ran out, and the list is as it was.
    pub fn add(&mut self, text: &[u8]) -> Result<u32, AllocError>
        requires short { length text.now ≤ NAME_BYTES_MAX }
        requires room { length self.old < NAMES_MAX }
        // The list has the text, and the result is its number.
        ensures added { OnOk result (self.new ≡ added self.old text.now) }
        ensures number { IfOk result (λ n. number_of self.new text.now ≡ Some n) }
        ensures found { IfOk result (λ n. slice_get self.new n ≡ Some text.now) }
        ensures known { (n : ℕ) → number_of self.old text.now ≡ Some n → IfOk result (λ m. m ≡ n) }
        ensures fresh { number_of self.old text.now ≡ None → IfOk result (λ n. n ≡ length self.old) }
        ensures within { IfOk result (λ n. n < length self.new) }

        // Only a new text can fail.
        ensures err { OnErr result (self.new ≡ self.old) }
        ensures absent { OnErr result (number_of self.old text.now ≡ None) }

        // Every name keeps its number.
        ensures kept { (n : ℕ) (earlier : List ℕ) → slice_get self.old n ≡ Some earlier → slice_get self.new n ≡ Some earlier }
    {
        if let Some(number) = self.number(text) {
            return Ok(number);
        }
        let copy = Vec::from_slice(*self.texts.allocator(), text)?;
        let (number, _) = self.texts.insert_full(copy)?;
        Ok(number as u32)
    }

    /// Appends the text where it is not in the list yet. Answers whether it was not. The text is hashed once, as it is not by
    /// `add` where it is new; but one that is there takes memory too, which is given back. An `Err` says that memory ran
    /// out, and the list is as it was.
    pub fn insert(&mut self, text: &[u8]) -> Result<bool, AllocError>
        requires short { length text.now ≤ NAME_BYTES_MAX }
        requires room { length self.old < NAMES_MAX }
        ensures new { IfOk result (λ is_new. is_new ≡ not (is_some (number_of self.old text.now))) }
        ensures added { OnOk result (self.new ≡ added self.old text.now) }
        ensures err { OnErr result (self.new ≡ self.old) }
    {
        let copy = Vec::from_slice(*self.texts.allocator(), text)?;
        let (_, is_new) = self.texts.insert_full(copy)?;
        Ok(is_new)
    }

    /// Keeps the first `len` names, or all where there are fewer. Takes no memory.
    pub fn cut(&mut self, len: u32)
        ensures { self.new ≡ take len self.old }
    {
        self.texts.truncate(len as usize);
    }
}
