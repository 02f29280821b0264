//! What turns say at an instant: which nodes have a value.
ghost use Rattle.std.specs.Prelude.{◌≡◌, ◌++◌, ℕ, false, drop, filter, nat_eq, IfOk, OnOk};
ghost use Rattle.std.specs.List.{list_any};
ghost use Rattle.std.specs.List.Sorted.{IsNonDecreasingBy};
ghost use Rattle.dg_aux.specs.Turns.{begins_with, is_told, lasts, IsRising, told_from};

use crate::turns::Turn;
use std::alloc::{AllocError, Global};

// Whether the turn is of the value, and up to the instant.
fn is_told(value: u32, t: u64, turn: &Turn) -> bool
    ensures { result ≡ is_told value t turn.now }
{
    turn.value == value && turn.time <= t
}

/// Adds the turns of the value up to the instant.
pub(crate) fn push_told(
    told: &mut Vec<Turn>,
    turns: &[Turn],
    value: u32,
    t: u64,
) -> Result<(), AllocError>
    ensures { OnOk result (told.new.items ≡ told.old.items ++ filter (is_told value t) turns.now) }
{
    for turn in turns {
        if is_told(value, t, turn) {
            told.push(*turn)?;
        }
    }
    Ok(())
}

// Brings the turns in the order of their nodes; those at one node keep their order.
fn sort_by_id(turns: &mut Vec<Turn>) -> Result<(), AllocError>
    ensures rises { OnOk result (IsNonDecreasingBy (λ turn. turn.id) turns.new.items) }
    ensures stays { (i : ℕ) → told_from false turns.new.items i ≡ told_from false turns.old.items i }
{
    turns.sort_by_key(|turn| turn.id)
}

// Whether the turns from the index on begin with one at this node.
fn begins_with(id: u64, turns: &[Turn], index: usize) -> bool
    ensures { result ≡ begins_with id (drop index turns.now) }
{
    index < turns.len() && turns[index].id == id
}

// The nodes whose last turn brings the value, where the turns at a node follow one another.
fn lasts(alloc: Global, turns: &[Turn]) -> Result<Vec<u64>, AllocError>
    ensures { IfOk result (λ ids. ids.items ≡ lasts turns.now) }
{
    let mut ids = Vec::new(alloc);
    for index in 0..turns.len() {
        let turn = turns[index];
        if turn.comes && !begins_with(turn.id, turns, index + 1) {
            ids.push(turn.id)?;
        }
    }
    Ok(ids)
}

/// The nodes whose last turn brings the value, by rising id.
pub(crate) fn nodes_of(alloc: Global, mut told: Vec<Turn>) -> Result<Vec<u64>, AllocError>
    ensures rise { IfOk result (λ ids. IsRising ids.items) }
    ensures found { IfOk result (λ ids. (i : ℕ) → list_any (nat_eq i) ids.items ≡ told_from false told.items i) }
{
    sort_by_id(&mut told)?;
    lasts(alloc, &told)
}
