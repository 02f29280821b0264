//! Sets of the messages that were collected.
ghost use Rattle.std.specs.Prelude.{◌≡◌, [], map, IfOk};
ghost use Rattle.std.specs.Global.{Vec};
ghost use Rattle.dg_graph.specs.declared.element.Element.{Element};
ghost use Rattle.dg_graph.specs.Sets.{unioned};

use dg_graph::Element;
use dg_set::Set;
use std::alloc::{AllocError, Global};

/// The set of the elements of each list. An `Err` says that memory ran out.
pub(crate) fn sets_of(alloc: Global, lists: Vec<Vec<Element>>) -> Result<Vec<Set>, AllocError>
    ensures { IfOk result (λ sets. sets.items ≡ map (λ (v : Vec Element). unioned [] v.items) lists.items) }
{
    let mut sets = Vec::with_capacity(alloc, lists.len())?;
    for list in lists {
        sets.push(Set::from_unsorted(list))?;
    }
    Ok(sets)
}
