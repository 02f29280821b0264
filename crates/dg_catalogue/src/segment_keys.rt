//! The keys of the records of a batch's segment, in the order of the file.
ghost use Rattle.std.specs.Prelude.{◌≡◌, ◌≤◌, ◌<◌, ◌+◌, ◌-◌, ◌*◌, ◌/◌, ◌++◌, ◌∷◌, [], true, map, length, IfOk, OnOk};
ghost use Rattle.std.specs.List.{flat_map};
ghost use Rattle.dg_history.specs.declared.limits.TheConstants.{EVENTS_MAX};
ghost use Rattle.dg_history.specs.declared.node.Key.TheVariants as key;
ghost use Rattle.dg_history.specs.History.{are_parameters};
ghost use Rattle.dg_index.specs.Hierarchy.{numbers, leaves};
ghost use Rattle.dg_index.specs.IndexRecords.{lists_due, deltas_of, deltas_due};

use dg_history::{Key, Params};
use std::alloc::{AllocError, Global};

/// How many closed lists, and so leaves, this many events give.
pub fn leaves(params: Params, events: u64) -> u32
    requires parameters { are_parameters params.l params.k ≡ true }
    requires few { events ≤ EVENTS_MAX }
    ensures leaves { result ≡ leaves params events }
    ensures few { result + result ≤ events }
{
    (events / u64::from(params.l)) as u32
}

// Adds the lists from the first of these numbers to the one before the second.
fn add_lists(from: u32, until: u32, out: &mut Vec<Key>) -> Result<(), AllocError>
    ensures { OnOk result (out.new.items ≡ out.old.items ++ map (λ i. key.List i) (numbers from (until - from))) }
{
    for i in from..until {
        out.push(Key::List(i))?;
    }
    Ok(())
}

// Adds the deltas from an interior node of this height to its children `from` to `until - 1`.
fn add_downs(height: u32, from: u32, until: u32, out: &mut Vec<Key>) -> Result<(), AllocError>
    ensures { OnOk result (out.new.items ≡ out.old.items ++ map (λ c. key.Down height c) (numbers from (until - from))) }
{
    for c in from..until {
        out.push(Key::Down(height, c))?;
    }
    Ok(())
}

// Adds the deltas of the interior node of this number, from 1: the one from the root to it, where it is the
// first of its height, and those to its children.
fn add_node(arity: u32, height: u32, node: u32, out: &mut Vec<Key>) -> Result<(), AllocError>
    requires some { 1 ≤ node }
    requires few { node * arity ≤ EVENTS_MAX }
    ensures { OnOk result (out.new.items ≡ out.old.items ++ deltas_of arity height node) }
{
    if node == 1 {
        out.push(Key::Top(height))?;
    }
    let from = (node - 1) * arity + 1;
    add_downs(height, from, from + arity, out)
}

// Adds the deltas of the interior nodes of a height, those behind the first `from` of them up to the one
// numbered `until`.
fn add_nodes(
    arity: u32,
    height: u32,
    from: u32,
    until: u32,
    out: &mut Vec<Key>,
) -> Result<(), AllocError>
    requires few { until * arity ≤ EVENTS_MAX }
    ensures { OnOk result (out.new.items ≡ out.old.items ++ flat_map (deltas_of arity height) (numbers (from + 1) (until - from))) }
{
    for node in from..until {
        add_node(arity, height, node + 1, out)?;
    }
    Ok(())
}

// Adds the deltas that `until` leaves give beside those that the first `from` of them gave: height by
// height, up to the first one that has no new node.
fn add_deltas(arity: u32, from: u32, until: u32, out: &mut Vec<Key>) -> Result<(), AllocError>
    requires arity { 2 ≤ arity }
    requires some { from ≤ until }
    requires few { until ≤ EVENTS_MAX }
    ensures { OnOk result (out.new.items ≡ out.old.items ++ deltas_due arity from until) }
{
    let mut height = 1;
    let mut low = from / arity;
    let mut high = until / arity;
    while low < high {
        add_nodes(arity, height, low, high, out)?;
        height += 1;
        low /= arity;
        high /= arity;
    }
    Ok(())
}

/// The keys of the records of a batch's segment, in the order of the file: the lists that it closes,
/// the deltas of the interior nodes that it completes, by height and number, and its piece. `before`
/// events stand in front of the batch, it has `events` of them, and `number` is that of its segment.
/// `AllocError` for want of memory.
pub fn keys_due(
    alloc: Global,
    params: Params,
    before: u64,
    events: u64,
    number: u32,
) -> Result<Vec<Key>, AllocError>
    requires parameters { are_parameters params.l params.k ≡ true }
    requires few { before + events ≤ EVENTS_MAX }
    ensures { IfOk result (λ keys. keys.items ≡ lists_due params before (before + events) ++ (deltas_due params.k (leaves params before) (leaves params (before + events)) ++ key.Piece number ∷ [])) }
{
    let from = leaves(params, before);
    let until = leaves(params, before + events);
    let mut keys = Vec::new(alloc);
    add_lists(from, until, &mut keys)?;
    add_deltas(params.k, from, until, &mut keys)?;
    keys.push(Key::Piece(number))?;
    Ok(keys)
}
