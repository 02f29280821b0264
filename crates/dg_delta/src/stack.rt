//! Deltas one behind another, in the same memory.

ghost use Rattle.std.specs.Prelude.{◌≡◌, ◌≤◌, length, OnOk};
ghost use Rattle.dg_graph.specs.Composition.{IsDelta, nothing};
ghost use Rattle.dg_delta.specs.Deltas.{composed, joined};
ghost use Rattle.dg_delta.specs.Stacks.{height_of, lower, stacked, upper};

use crate::delta::Delta;
use dg_set::{Element, Set, replace_within};
use std::alloc::{AllocError, Global};

/// Deltas one behind another, the last on top: what they take out stands in one list and what they put in in another, of
/// each delta behind that of those below it. So two that are composed need no further memory for what comes of them.
#[derive(Drop)]
pub struct DeltaStack {
    /// What they take out.
    pub minus: Vec<Element>,
    /// What they put in.
    pub plus: Vec<Element>,
}

/// Where a delta begins in a stack.
#[derive(Clone, Copy)]
pub struct Height {
    /// How many elements those below it take out.
    pub minus: usize,
    /// How many elements those below it put in.
    pub plus: usize,
}

impl DeltaStack {
    /// A stack of no deltas. Takes no memory yet.
    pub fn new(alloc: Global) -> DeltaStack
        ensures { stacked result ≡ nothing }
    {
        DeltaStack {
            minus: Vec::new(alloc),
            plus: Vec::new(alloc),
        }
    }

    /// Where the next delta will begin.
    pub fn height(&self) -> Height
        ensures { result ≡ height_of (stacked self.now) }
    {
        Height {
            minus: self.minus.len(),
            plus: self.plus.len(),
        }
    }

    /// Puts the delta on top. An `Err` says that memory ran out.
    pub fn push(&mut self, delta: &Delta) -> Result<(), AllocError>
        ensures { OnOk result (stacked self.new ≡ joined (stacked self.old) delta.now) }
    {
        self.minus.extend_from_slice(delta.minus().items())?;
        self.plus.extend_from_slice(delta.plus().items())
    }

    // Takes what stands behind the height, in place of what it had.
    fn copy_top(&mut self, from: &DeltaStack, height: Height) -> Result<(), AllocError>
        requires minus { height.minus ≤ length from.now.minus.items }
        requires plus { height.plus ≤ length from.now.plus.items }
        ensures { OnOk result (stacked self.new ≡ upper height (stacked from.now)) }
    {
        self.minus.clear();
        self.minus.extend_from_slice(&from.minus[height.minus..])?;
        self.plus.clear();
        self.plus.extend_from_slice(&from.plus[height.plus..])
    }

    /// Composes the two deltas on top, of which the one begins at `first` and the other at `then`. What the other names
    /// is copied to `spare` meanwhile, whose own deltas are lost. An `Err` says that memory ran out.
    pub fn compose(
        &mut self,
        spare: &mut DeltaStack,
        first: Height,
        then: Height,
    ) -> Result<(), AllocError>
        requires minus_order { first.minus ≤ then.minus }
        requires plus_order { first.plus ≤ then.plus }
        requires minus_within { then.minus ≤ length self.old.minus.items }
        requires plus_within { then.plus ≤ length self.old.plus.items }
        requires first { IsDelta (upper first (lower then (stacked self.old))) }
        requires then { IsDelta (upper then (stacked self.old)) }
        ensures { OnOk result (stacked self.new ≡ joined (lower first (stacked self.old)) (composed (upper first (lower then (stacked self.old))) (upper then (stacked self.old)))) }
    {
        spare.copy_top(self, then)?;
        let (minus, plus) = (&spare.minus, &spare.plus);
        replace_within(&mut self.minus, first.minus, then.minus, plus, minus);
        replace_within(&mut self.plus, first.plus, then.plus, minus, plus);
        Ok(())
    }

    /// The delta of a stack of one. Takes no memory.
    pub fn into_delta(self) -> Delta
        requires { IsDelta (stacked self) }
        ensures { result ≡ stacked self }
    {
        Delta::of(Set::from_rising(self.minus), Set::from_rising(self.plus))
    }
}
