//! What leads to what one part shows.
ghost use Rattle.std.specs.Prelude.{◌≡◌, IfOk};
ghost use Rattle.dg_graph.specs.Elements.{IsSet, shown};
ghost use Rattle.dg_gather.specs.Gathered.{shown_by};

use dg_event::{asks, column_of};
use dg_fold::{Writing, compose_for};
use dg_graph::{Columns, Element};
use dg_set::Set;
use std::alloc::{AllocError, Global};

/// What leads to what one part shows as of an instant: the set with which it begins, and the deltas from there.
#[derive(Drop)]
pub struct Gathered {
    /// The set with which it begins.
    pub base: Set,
    /// What is taken out and put in from there, in order; what is for the first target counts.
    pub writings: Vec<Writing>,
    /// The columns that are shown.
    pub cols: Columns,
    /// The bytes that were read for it.
    pub weight: u64,
}

/// The elements of the set in these columns. Takes no memory.
pub fn shown(set: Set, cols: Columns) -> Set
    ensures { result ≡ shown set cols }
{
    let mut items = set.into_items();
    items.retain(|element| asks(cols, column_of(element)));
    Set::from_rising(items)
}

impl Gathered {
    /// The elements that the part shows rise. Does nothing.
    pub fn facts(&self)
        ensures { IsSet (shown_by self.now) }
    {
        // Its clause says that those with which it begins rise.
        self.base.items();
    }

    /// What the part shows. An `Err` says that memory ran out.
    pub fn set(&self, alloc: Global) -> Result<Set, AllocError>
        ensures { IfOk result (λ set. set ≡ shown_by self.now) }
    {
        let delta = compose_for(alloc, &self.writings, 0)?;
        let set = delta.apply(&self.base)?;
        Ok(shown(set, self.cols))
    }
}
