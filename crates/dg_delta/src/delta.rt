//! Deltas between sets: made, applied, composed, reversed.
ghost use Rattle.std.specs.Prelude.{◌≡◌, ◌↔◌, [], ◌∷◌, IfOk, IfSome, IsSome};
ghost use Rattle.dg_graph.specs.Elements.{IsSet};
ghost use Rattle.dg_graph.specs.Composition.{IsDelta, between, applied, chained, reversed, Composes};
ghost use Rattle.dg_set.specs.Apart.{AreApart};
ghost use Rattle.dg_delta.specs.Deltas.{composed, joined};

use dg_set::Set;
use std::alloc::{AllocError, Global};
use std::marker::Model;

/// What turns one set of elements into another: the elements of `minus` are taken out, and those of
/// `plus` put in. The two share no element.
#[derive(Drop)]
pub struct Delta {
    minus: Set,
    plus: Set,
}

impl Model for Delta {
    ghost use Rattle.dg_graph.specs.Composition.{Delta, IsDelta};

    ghost Value = { Delta };

    ghost view = { λ d. record { minus = d.minus; plus = d.plus } };

    ghost invariant = { λ d. IsDelta (record { minus = d.minus; plus = d.plus }) };
}

impl Delta {
    /// The delta that changes nothing. Takes no memory.
    pub fn new(alloc: Global) -> Delta
        ensures { result ≡ record { minus = []; plus = [] } }
    {
        Delta::of(Set::new(alloc), Set::new(alloc))
    }

    /// The delta of two sets, or `None` exactly where they share an element. Takes no memory.
    pub fn from_sets(minus: Set, plus: Set) -> Option<Delta>
        ensures exact { IsSome result ↔ AreApart minus plus }
        ensures sets { IfSome result (λ d. d ≡ record { minus = minus; plus = plus }) }
    {
        if minus.is_disjoint(&plus) {
            Some(Delta::of(minus, plus))
        } else {
            None
        }
    }

    /// The elements that are taken out.
    pub fn minus(&self) -> &Set
        ensures value { result.now ≡ self.now.minus }
        ensures delta { IsDelta self.now }
    {
        &self.minus
    }

    /// The elements that are put in.
    pub fn plus(&self) -> &Set
        ensures value { result.now ≡ self.now.plus }
        ensures delta { IsDelta self.now }
    {
        &self.plus
    }

    /// The elements that are taken out, and those that are put in. Takes no memory.
    pub fn into_sets(self) -> (Set, Set)
        ensures minus { result.0 ≡ self.minus }
        ensures plus { result.1 ≡ self.plus }
        ensures delta { IsDelta self }
    {
        (self.minus, self.plus)
    }

    /// This delta and `later`, whose elements all come after those of this one. No element is compared.
    /// An `Err` says that memory ran out.
    pub fn join(self, later: &Delta) -> Result<Delta, AllocError>
        requires { IsDelta (joined self later.now) }
        ensures { IfOk result (λ d. d ≡ joined self later.now) }
    {
        let minus = self.minus.join(&later.minus)?;
        let plus = self.plus.join(&later.plus)?;
        Ok(Delta::of(minus, plus))
    }

    /// The exact delta from `a` to `b`: it names no element that is in both or in neither. Its memory
    /// comes from the allocator of `a`. An `Err` says that memory ran out.
    pub fn between(a: &Set, b: &Set) -> Result<Delta, AllocError>
        ensures { IfOk result (λ d. d ≡ between a.now b.now) }
    {
        let (minus, plus) = a.differences(b)?;
        Ok(Delta::of(minus, plus))
    }

    /// The set without the elements of `minus`, and with those of `plus`. An `Err` says that memory
    /// ran out.
    pub fn apply(&self, set: &Set) -> Result<Set, AllocError>
        ensures { IfOk result (λ s. s ≡ applied self.now set.now) }
    {
        set.replaced(&self.minus, &self.plus)
    }

    /// This delta and then `later`, as one: of each element `later` decides where it names it, and
    /// else this delta. An `Err` says that memory ran out.
    pub fn compose(&self, later: &Delta) -> Result<Delta, AllocError>
        ensures composes { IfOk result (λ d. Composes d (self.now ∷ later.now ∷ [])) }
        ensures sets { IfOk result (λ d. d ≡ composed self.now later.now) }
    {
        let minus = self.minus.replaced(&later.plus, &later.minus)?;
        let plus = self.plus.replaced(&later.minus, &later.plus)?;
        Ok(Delta::of(minus, plus))
    }

    /// This delta and then `later`, as `compose` makes it, in the memory of this one where it can be. An
    /// `Err` says that memory ran out.
    pub fn into_composed(self, later: &Delta) -> Result<Delta, AllocError>
        ensures composes { IfOk result (λ d. Composes d (self ∷ later.now ∷ [])) }
        ensures sets { IfOk result (λ d. d ≡ composed self later.now) }
    {
        let minus = self.minus.into_replaced(&later.plus, &later.minus)?;
        let plus = self.plus.into_replaced(&later.minus, &later.plus)?;
        Ok(Delta::of(minus, plus))
    }

    /// This delta and then `later`, which begins where this one ends, as one exact delta: what one
    /// takes out and the other puts in again is as it was. An `Err` says that memory ran out.
    pub fn chain(&self, later: &Delta) -> Result<Delta, AllocError>
        ensures { IfOk result (λ d. d ≡ chained self.now later.now) }
    {
        let new_minus = later.minus.minus(&self.plus)?;
        let new_plus = later.plus.minus(&self.minus)?;
        let minus = self.minus.replaced(&later.plus, &new_minus)?;
        let plus = self.plus.replaced(&later.minus, &new_plus)?;
        Ok(Delta::of(minus, plus))
    }

    /// The same delta once more. An `Err` says that memory ran out.
    pub fn copy(&self) -> Result<Delta, AllocError>
        ensures { IfOk result (λ d. d ≡ self.now) }
    {
        let minus = self.minus.copy()?;
        let plus = self.plus.copy()?;
        Ok(Delta::of(minus, plus))
    }

    /// The delta that leads back: its two sets are changed over. Takes no memory.
    pub fn reverse(self) -> Delta
        ensures { result ≡ reversed self }
    {
        Delta::of(self.plus, self.minus)
    }

    /// The delta of two sets that are known to share no element. Nothing is compared.
    pub fn of(minus: Set, plus: Set) -> Delta
        requires { AreApart minus plus }
        ensures { result ≡ record { minus = minus; plus = plus } }
    {
        rises(&minus);
        rises(&plus);
        Delta { minus, plus }
    }
}

// Tells the proofs that the set rises strictly. It does nothing.
fn rises(set: &Set)
    ensures { IsSet set.now }
{
    set.items();
}
