//! The first changes of a seed, as many as are asked for.
ghost use Rattle.std.specs.Prelude.{◌≡◌, ◌+◌, ◌*◌, ◌≤◌, IfOk, OnOk, Some, length, map, take};
ghost use Rattle.dg_changes.specs.Batch.{changes_after, names_after};
ghost use Rattle.dg_changes.specs.GeneratedChanges.{generated};

use crate::generator::Generator;
use dg_graph::Change;
use dg_history::BATCH_LINES_MAX;
use dg_names::Names;
use dg_text::NAMES_MAX;
use std::alloc::{AllocError, Global};

/// The first `count` changes of the seed, by the numbers of their texts in the names, which get those that
/// they lack. An `Err` says that memory ran out: then the names may have some of these texts as new last
/// ones.
pub fn generated_changes(
    alloc: Global,
    seed: u64,
    count: u32,
    names: &mut Names,
) -> Result<Vec<Change>, AllocError>
    requires few { count ≤ BATCH_LINES_MAX }
    requires room { length names.old + 2 * count ≤ NAMES_MAX }
    ensures changes { IfOk result (λ changes. changes_after names.old (generated seed count) ≡ map Some changes.items) }
    ensures count { IfOk result (λ changes. length changes.items ≡ count) }
    ensures names { OnOk result (names.new ≡ names_after names.old (generated seed count)) }

    // Every name keeps its number.
    ensures kept { take (length names.old) names.new ≡ names.old }
{
    let mut generator = Generator::new(seed);
    let mut changes = Vec::with_capacity(alloc, count as usize)?;
    for _ in 0..count {
        changes.push(generator.next(names)?)?;
    }
    Ok(changes)
}
