//! The row of children of the interior nodes of a height, by exact steps.

ghost use Rattle.std.specs.Prelude.{◌≡◌, ◌<◌, ◌+◌, ◌++◌, ◌∷◌, length, take, drop, IfOk};
ghost use Rattle.dg_build.specs.GivenDeltas.{row_to};

use dg_delta::Delta;
use std::alloc::{AllocError, Global};

// The step with this index between older nodes, of which the last is led on to the first new one, by the delta to
// it from where that step leads. An `Err` says that memory ran out.
fn older_step(older: &[Delta], i: usize, up: &Delta) -> Result<Delta, AllocError>
    requires { i < length older.now }
    ensures { IfOk result (λ step. row_to (drop i older.now) up.now ≡ step ∷ row_to (drop (i + 1) older.now) up.now) }
{
    if i + 1 < older.len() {
        older[i].copy()
    } else {
        older[i].chain(up)
    }
}

/// The exact steps from each older node to the next, and from the last of them to the first new one, and so
/// many of the steps between the new ones. The older steps lead from the last of them to where the height
/// starts, and `up` from there to the first new one. An `Err` says that memory ran out.
pub(crate) fn row_steps(
    alloc: Global,
    older: &[Delta],
    up: &Delta,
    steps: Vec<Delta>,
    count: usize,
) -> Result<Vec<Delta>, AllocError>
    ensures { IfOk result (λ r. r.items ≡ row_to older.now up.now ++ take count steps.items) }
{
    let mut row = Vec::with_capacity(alloc, older.len())?;
    for i in 0..older.len() {
        row.push(older_step(older, i, up)?)?;
    }
    let mut steps = steps;
    steps.truncate(count);
    row.append(&mut steps)?;
    Ok(row)
}
