//! The index of one key.
ghost use Rattle.std.specs.Prelude.{◌≡◌, ◌+◌, ◌*◌, ◌≤◌, ℕ, [], ◌++◌, length, nat_eq, IfOk, OnOk};
ghost use Rattle.std.specs.List.{list_any};
ghost use Rattle.dg_aux.specs.Turns.{AreAlike, HasRoomFor, IsRising, additions, says, turns_of};

use crate::found::{nodes_of, push_told};
use crate::turns::{Turn, of_value, push_events, sort};
use dg_event::Event;
use std::alloc::{AllocError, Global};
use std::marker::Model;

// So many turns wait for the next sort, beside one for each so many that are in order. A search looks at each of them.
const WAITING: usize = 512;

const SORTED_PER_WAITING: usize = 256;

/// An index from the values of a node attribute to nodes.
///
/// It keeps each value that comes to a node or goes from it as a turn. The first turns stand in the order of their
/// values and nodes, so those of one value follow one another; the others wait until enough of them do.
#[derive(Drop)]
pub struct Aux {
    key: u32,
    turns: Vec<Turn>,
    // So many of the first turns are in order.
    sorted: usize,
}

impl Model for Aux {
    ghost use Rattle.std.specs.Prelude.{◌-◌, ◌≤◌, take, vec_capacity, vec_len};
    ghost use Rattle.std.specs.List.Sorted.{IsSortedBy};
    ghost use Rattle.dg_aux.specs.Turns.{AuxState, earlier};

    ghost Value = { AuxState };

    ghost view = { λ a. record { key = a.key; turns = a.turns.items; room = vec_capacity a.turns - vec_len a.turns } };

    ghost invariant = { λ a. (a.sorted ≤ vec_len a.turns) × IsSortedBy earlier (take a.sorted a.turns.items) };
}

impl Aux {
    /// An index of the key over no event. Takes no memory yet.
    pub fn new(alloc: Global, key: u32) -> Aux
        ensures key { result.key ≡ key }
        ensures turns { result.turns ≡ [] }
    {
        Aux {
            key,
            turns: Vec::new(alloc),
            sorted: 0,
        }
    }

    /// The key, by its number in the list of names.
    pub fn key(&self) -> u32
        ensures { result ≡ self.now.key }
    {
        self.key
    }

    /// Makes room for so many events more, of whatever keys, values and nodes.
    ///
    /// An `Err` says that memory ran out.
    pub fn reserve(&mut self, count: usize) -> Result<(), AllocError>
        ensures room { OnOk result (HasRoomFor self.new count) }
        ensures key { self.new.key ≡ self.old.key }
        ensures turns { self.new.turns ≡ self.old.turns }
    {
        match count.checked_mul(2) {
            Some(most) => self.turns.reserve(most),
            None => Err(AllocError),
        }
    }

    /// Adds the turns of the events of this key. Takes no memory, and no time for the turns before.
    pub fn apply(&mut self, events: &[Event])
        requires room { HasRoomFor self.old (length events.now) }
        ensures key { self.new.key ≡ self.old.key }
        ensures turns { self.new.turns ≡ self.old.turns ++ turns_of self.old.key events.now }
        ensures room { self.old.room ≤ self.new.room + 2 * length events.now }
    {
        push_events(&mut self.turns, self.key, events);
    }

    /// How many of the events added a value of the key. O(n).
    pub fn spans(&self) -> u64
        ensures { result ≡ additions self.now.turns }
    {
        let mut spans = 0;
        for turn in &self.turns {
            if turn.comes {
                spans += 1;
            }
        }
        spans
    }

    /// The nodes that have the value at the instant, by rising id. It looks at each turn of the value, and at those that
    /// wait.
    ///
    /// An `Err` says that memory ran out.
    pub fn find(&self, alloc: Global, value: u32, t: u64) -> Result<Vec<u64>, AllocError>
        ensures rise { IfOk result (λ ids. IsRising ids.items) }
        ensures found { IfOk result (λ ids. (id : ℕ) → list_any (nat_eq id) ids.items ≡ says self.now.turns value id t) }
    {
        let mut told = Vec::new(alloc);
        push_told(
            &mut told,
            of_value(&self.turns[..self.sorted], value),
            value,
            t,
        )?;
        push_told(&mut told, &self.turns[self.sorted..], value, t)?;
        nodes_of(alloc, told)
    }

    /// Sorts the turns that wait in with the others, where many do, so that a search has few to look at. What is said of a
    /// value at a node stays as it was. Where memory lacks they wait on. A turn is moved about 256 times in all.
    pub fn tidy(&mut self)
        ensures key { self.new.key ≡ self.old.key }
        ensures alike { AreAlike self.old.turns self.new.turns }
        ensures room { self.new.room ≡ self.old.room }
    {
        if self.is_due() && sort(&mut self.turns).is_ok() {
            self.sorted = self.turns.len();
        }
    }

    // Whether enough turns wait to be sorted.
    fn is_due(&self) -> bool {
        self.turns.len() - self.sorted > WAITING + self.sorted / SORTED_PER_WAITING
    }
}
