//! The last events of the targets of a tree.

ghost use Rattle.std.specs.Prelude.{◌≡◌, IfOk, IfErr, IsTrue, find};
ghost use Rattle.dg_history.specs.declared.node.Key.{Key};
ghost use Rattle.dg_history.specs.declared.node.Key.TheVariants as a_key;
ghost use Rattle.dg_history.specs.Keys.{same_key};
ghost use Rattle.dg_fold.specs.declared.part.Part.{Part};
ghost use Rattle.dg_fold.specs.Parts.{Folds};
ghost use Rattle.dg_fold.specs.Ends.{part_until, list_part, last_in};

use crate::column::part_delta_as;
use crate::fault::FoldFault;
use crate::net::net_of;
use crate::part::Part;
use dg_delta::Delta;
use dg_graph::Event;
use dg_history::{Key, NodeId};
use dg_plan::Way;
use std::alloc::Global;
use std::thread::Threads;

// Whether the key is that of the list.
fn is_list(key: Key, list: u32) -> bool
    ensures { result ≡ same_key key (a_key.List list) }
{
    match key {
        Key::List(number) => number == list,
        Key::Piece(_) | Key::Top(_) | Key::Down(_, _) => false,
    }
}

// The events of the list up to the instant.
fn list_delta<R: Threads>(
    rt: &R,
    alloc: Global,
    name_count: u32,
    parts: &[Part],
    list: u32,
    time: u64,
) -> Result<Delta, FoldFault>
    ensures { Folds result (part_until name_count time (list_part list parts.now)) }
{
    for part in parts {
        if is_list(part.key, list) {
            return part_delta_as(rt, alloc, name_count, part, Way::Forward, Some(time));
        }
    }
    Ok(Delta::new(alloc))
}

/// The node's own events up to the instant.
pub(crate) fn last_delta<R: Threads>(
    rt: &R,
    alloc: Global,
    name_count: u32,
    to: NodeId,
    time: u64,
    parts: &[Part],
    recent: &[Event],
) -> Result<Delta, FoldFault>
    ensures { Folds result (last_in name_count recent.now parts.now to time) }
{
    match to {
        NodeId::Root | NodeId::Now | NodeId::Leaf(_) | NodeId::Inner(_, _) => Ok(Delta::new(alloc)),
        NodeId::Recent => Ok(net_of(rt, alloc, recent, Way::Forward, Some(time))?),
        NodeId::List(list) => list_delta(rt, alloc, name_count, parts, list, time),
    }
}
