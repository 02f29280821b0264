//! What the parts show together, by halves.
ghost use Rattle.std.specs.Prelude.{◌≡◌, map, IfOk, OnOk};
ghost use Rattle.std.specs.List.{All};
ghost use Rattle.std.specs.Thread.{IsSync};
ghost use Rattle.dg_graph.specs.DifferentialFunction.{all_of};
ghost use Rattle.dg_graph.specs.Elements.{IsSet};
ghost use Rattle.dg_gather.specs.Gathered.{shown_by};

use crate::gathered::Gathered;
use dg_set::Set;
use std::alloc::{AllocError, Global};
use std::thread::{Threads, join};

/// The union of what all of them show. They are cut in halves, which are put together in two threads; the answer is that of
/// one. An `Err` says that memory ran out.
pub fn compose_parts<R: Threads + Sync>(
    rt: &R,
    alloc: Global,
    parts: &[Gathered],
) -> Result<Set, AllocError>
    ensures value { IfOk result (λ set. set ≡ all_of (map shown_by parts.now)) }
    ensures sets { OnOk result (All IsSet (map shown_by parts.now)) }
{
    if parts.len() <= 1 {
        return match parts.first() {
            None => Ok(Set::new(alloc)),
            Some(part) => {
                part.facts();
                part.set(alloc)
            }
        };
    }
    let (left, right) = parts.split_at(parts.len() / 2);
    let (first, then) = join(
        rt,
        || -> Result<Set, AllocError>
            requires { IsSync R.row }
            ensures value { IfOk result (λ set. set ≡ all_of (map shown_by left.entry.now)) }
            ensures sets { OnOk result (All IsSet (map shown_by left.entry.now)) }
        { compose_parts(rt, alloc, left) },
        || -> Result<Set, AllocError>
            requires { IsSync R.row }
            ensures value { IfOk result (λ set. set ≡ all_of (map shown_by right.entry.now)) }
            ensures sets { OnOk result (All IsSet (map shown_by right.entry.now)) }
        { compose_parts(rt, alloc, right) },
    );
    let first = first?;
    let then = then?;
    first.union(&then)
}
