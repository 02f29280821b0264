//! Sets of elements, as strictly rising lists.
ghost use Rattle.std.specs.Prelude.{◌≡◌, ◌↔◌, ◌&&◌, ◌||◌, List, [], ◌++◌, length, not, is_ok, IfOk, IfErr, IsOk, IsTrue, if◌then◌else◌};
ghost use Rattle.dg_graph.specs.declared.element.Element.{Element};
ghost use Rattle.dg_graph.specs.Elements.{IsSet, has, put, take_out};
ghost use Rattle.dg_graph.specs.Sets.{unioned, met, without_all};
ghost use Rattle.dg_set.specs.Apart.{AreApart};
ghost use Rattle.dg_set.specs.Indices.{IsFirstFault};

use crate::search::{first_fault, index_of};
use crate::{merge, replace};
use dg_graph::Element;
use std::alloc::{AllocError, Global};
use std::marker::Model;

/// A set of elements, seen as the strictly rising list of them.
#[derive(Drop)]
pub struct Set {
    items: Vec<Element>,
}

impl Model for Set {
    ghost use Rattle.std.specs.Prelude.{List};
    ghost use Rattle.dg_graph.specs.declared.element.Element.{Element};
    ghost use Rattle.dg_graph.specs.Elements.{IsSet};

    ghost Value = { List Element };

    ghost view = { λ set. set.items.items };

    ghost invariant = { λ set. IsSet set.items.items };
}

impl Set {
    /// A set with no elements, whose memory comes from `alloc`. Takes no memory yet.
    pub fn new(alloc: Global) -> Set
        ensures { result ≡ [] }
    {
        Set {
            items: Vec::new(alloc),
        }
    }

    /// The set of the items of a list that rises strictly. Takes no memory. An `Err` gives the
    /// first index whose item is not greater than the one before it.
    pub fn from_sorted(items: Vec<Element>) -> Result<Set, usize>
        ensures ok { IfOk result (λ set. set ≡ items.items) }
        ensures exact { IsOk result ↔ IsSet items.items }
        ensures first { IfErr result (λ index. IsFirstFault items.items index) }
    {
        match first_fault(&items) {
            None => Ok(Set { items }),
            Some(index) => Err(index),
        }
    }

    /// The set of the items of a list that is known to rise strictly. Nothing is compared.
    pub fn from_rising(items: Vec<Element>) -> Set
        requires { IsSet items.items }
        ensures { result ≡ items.items }
    {
        Set { items }
    }

    /// The set of the items of a list, which may stand in any order and be repeated. They are sorted in their own
    /// memory: O(n log n).
    pub fn from_unsorted(items: Vec<Element>) -> Set
        ensures { result ≡ unioned [] items.items }
    {
        let mut rising = items;
        rising.sort_unstable();
        rising.dedup();
        Set { items: rising }
    }

    /// Whether the element is in the set.
    pub fn has(&self, element: &Element) -> bool
        ensures { result ≡ has self.now element.now }
    {
        index_of(&self.items, element).is_ok()
    }

    /// Whether the two sets share no element.
    pub fn is_disjoint(&self, other: &Set) -> bool
        ensures { IsTrue result ↔ AreApart self.now other.now }
    {
        merge::are_apart(&self.items, &other.items)
    }

    /// How many elements the set has.
    pub fn len(&self) -> u64
        ensures { result ≡ length self.now }
    {
        self.items.len() as u64
    }

    /// The elements in their order.
    pub fn items(&self) -> &[Element]
        ensures value { result.now ≡ self.now }
        ensures set { IsSet self.now }
    {
        self.items.as_slice()
    }

    /// The elements in their order, as a list that rises. Takes no memory.
    pub fn into_items(self) -> Vec<Element>
        ensures value { result.items ≡ self }
        ensures set { IsSet self }
    {
        self.items
    }

    /// The elements of this set, and then those of `later`, which all come after them. No element is
    /// compared. An `Err` says that memory ran out.
    pub fn join(self, later: &Set) -> Result<Set, AllocError>
        requires { IsSet (self ++ later.now) }
        ensures { IfOk result (λ set. set ≡ self ++ later.now) }
    {
        let mut items = self.items;
        items.extend_from_slice(&later.items)?;
        Ok(Set { items })
    }

    /// Adds the element, and answers whether it is new. An `Err` says that memory ran out, and the
    /// set is as it was.
    pub fn insert(&mut self, element: Element) -> Result<bool, AllocError>
        ensures after { self.new ≡ (if is_ok result then put element self.old else self.old) }
        ensures new { IfOk result (λ was_new. was_new ≡ not (has self.old element)) }
    {
        match index_of(&self.items, &element) {
            Ok(_) => Ok(false),
            Err(index) => {
                self.items.insert(index, element)?;
                Ok(true)
            }
        }
    }

    /// Takes the element out, and answers whether it was there.
    pub fn remove(&mut self, element: &Element) -> bool
        ensures after { self.new ≡ take_out element.now self.old }
        ensures was { result ≡ has self.old element.now }
    {
        match index_of(&self.items, element) {
            Ok(index) => {
                self.items.remove(index);
                true
            }
            Err(_) => false,
        }
    }

    /// The elements of either set. An `Err` says that memory ran out.
    pub fn union(&self, other: &Set) -> Result<Set, AllocError>
        ensures value { IfOk result (λ set. set ≡ unioned self.now other.now) }
        ensures members { IfOk result (λ set. (x : Element) → has set x ≡ (has self.now x || has other.now x)) }
    {
        let items = replace::union(*self.items.allocator(), &self.items, &other.items)?;
        Ok(Set { items })
    }

    /// The elements of both sets. An `Err` says that memory ran out.
    pub fn meet(&self, other: &Set) -> Result<Set, AllocError>
        ensures value { IfOk result (λ set. set ≡ met self.now other.now) }
        ensures members { IfOk result (λ set. (x : Element) → has set x ≡ (has self.now x && has other.now x)) }
    {
        let items = merge::meet(*self.items.allocator(), &self.items, &other.items)?;
        Ok(Set { items })
    }

    /// The elements that `other` does not have. An `Err` says that memory ran out.
    pub fn minus(&self, other: &Set) -> Result<Set, AllocError>
        ensures value { IfOk result (λ set. set ≡ without_all self.now other.now) }
        ensures members { IfOk result (λ set. (x : Element) → has set x ≡ (has self.now x && not (has other.now x))) }
    {
        let items = replace::minus(*self.items.allocator(), &self.items, &other.items)?;
        Ok(Set { items })
    }

    /// The elements that `other` does not have, and those of `other` that this set does not have. An
    /// `Err` says that memory ran out.
    pub fn differences(&self, other: &Set) -> Result<(Set, Set), AllocError>
        ensures first { IfOk result (λ sets. sets.0 ≡ without_all self.now other.now) }
        ensures second { IfOk result (λ sets. sets.1 ≡ without_all other.now self.now) }
    {
        let (first, second) = merge::differences(
            *self.items.allocator(),
            &self.items,
            &other.items,
        )?;
        Ok((Set { items: first }, Set { items: second }))
    }

    /// This set without the elements of `out`, and with those of `into`. An `Err` says that memory
    /// ran out.
    pub fn replaced(&self, out: &Set, into: &Set) -> Result<Set, AllocError>
        ensures value { IfOk result (λ set. set ≡ unioned (without_all self.now out.now) into.now) }
        ensures members { IfOk result (λ set. (x : Element) → has set x ≡ ((has self.now x && not (has out.now x)) || has into.now x)) }
    {
        let alloc = *self.items.allocator();
        let items = replace::replaced(alloc, &self.items, &out.items, &into.items)?;
        Ok(Set { items })
    }

    /// This set without the elements of `out`, and with those of `into`, in its own memory, which grows where
    /// any are put in. An `Err` says that memory ran out.
    pub fn into_replaced(self, out: &Set, into: &Set) -> Result<Set, AllocError>
        ensures { IfOk result (λ set. set ≡ unioned (without_all self out.now) into.now) }
    {
        let mut items = self.items;
        let left = items.len();
        items.extend_from_slice(&into.items)?;
        replace::replace_within(&mut items, 0, left, &out.items, &into.items);
        Ok(Set { items })
    }

    /// The same set once more. An `Err` says that memory ran out.
    pub fn copy(&self) -> Result<Set, AllocError>
        ensures { IfOk result (λ set. set ≡ self.now) }
    {
        let items = Vec::from_slice(*self.items.allocator(), &self.items)?;
        Ok(Set { items })
    }
}
