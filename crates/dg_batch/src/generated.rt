//! The batch that a seed leads to.

ghost use Rattle.std.specs.Prelude.{◌≡◌, ◌+◌, ◌*◌, ◌≤◌, IfOk, OnErr, length};
ghost use Rattle.dg_text.specs.declared.limits.TheConstants.{NAMES_MAX};
ghost use Rattle.dg_history.specs.declared.limits.TheConstants.{BATCH_LINES_MAX};
ghost use Rattle.dg_batch.specs.GeneratedBatch.{IsGenerated};

use dg_append::{Batch, Front};
use dg_names::Names;
use dg_workload::generated_changes;
use std::alloc::{AllocError, Global};

/// The batch of the first `count` changes of the seed. The names get the texts of the changes that they
/// lack. An `Err` says that memory ran out: the names are then as they were.
pub fn generated_batch(
    alloc: Global,
    seed: u64,
    count: u32,
    names: &mut Names,
) -> Result<Batch, AllocError>
    requires few { count ≤ BATCH_LINES_MAX }
    requires room { length names.old + 2 * count ≤ NAMES_MAX }
    ensures generated { IfOk result (λ batch. IsGenerated seed count names.old names.new batch) }
    ensures same { OnErr result (names.new ≡ names.old) }
{
    let known = names.len();
    let Ok(changes) = generated_changes(alloc, seed, count, names) else {
        names.cut(known);
        return Err(AllocError);
    };
    // Its clause says that they are few.
    names.facts();
    Ok(Batch {
        known,
        front: Front::Whole,
        changes,
    })
}
