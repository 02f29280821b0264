//! Sets that one walk goes through together.

ghost use Rattle.std.specs.Prelude.{◌≡◌, ◌↔◌, ◌≤◌, ◌<◌, List, [], map, length, take, IfSome, IfNone, IsTrue, MatchOption};
ghost use Rattle.std.specs.List.{All, Any};
ghost use Rattle.dg_graph.specs.Elements.{IsSet};
ghost use Rattle.dg_expr.specs.Rests.{begins, past, first_in};

use dg_graph::Element;
use dg_set::Set;
use std::cmp::Ordering;
use std::marker::Model;

/// What is left of a set, in its order.
#[derive(Drop)]
pub(crate) struct Rest<'a> {
    items: &'a [Element],
}

impl<'a> Model for Rest<'a> {
    ghost use Rattle.std.specs.Prelude.{List};
    ghost use Rattle.dg_graph.specs.declared.element.Element.{Element};
    ghost use Rattle.dg_graph.specs.Elements.{IsSet};

    ghost Value = { List Element };

    ghost view = { λ rest. rest.items.now };

    ghost invariant = { λ rest. IsSet rest.items.now };
}

impl<'a> Rest<'a> {
    /// All of a set.
    pub(crate) fn of(set: &'a Set) -> Rest<'a>
        ensures value { result ≡ set.now }
        ensures set { IsSet set.now }
    {
        Rest { items: set.items() }
    }

    /// The first element that is left.
    pub(crate) fn first(&self) -> Option<Element>
        ensures { result ≡ first_in self.now }
    {
        self.items.first().copied()
    }

    /// Goes past the first element where that is `x`, and answers whether it is.
    pub(crate) fn skip(&mut self, x: &Element) -> bool
        ensures after { self.new ≡ past x.now self.old }
        ensures was { result ≡ begins x.now self.old }
    {
        match self.items.split_first() {
            Some((first, more)) if first == x => {
                self.items = more;
                true
            }
            _ => false,
        }
    }
}
