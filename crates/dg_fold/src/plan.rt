//! Composing the parts of a plan, by halves.

ghost use Rattle.std.specs.Prelude.{List, Result, Err, IfErr, OnOk};
ghost use Rattle.std.specs.Thread.{IsSync};
ghost use Rattle.dg_graph.specs.declared.element.Column.{Column};
ghost use Rattle.dg_history.specs.declared.node.Key.{Key};
ghost use Rattle.dg_delta.specs.Stacks.{stacked};
ghost use Rattle.dg_graph.specs.Composition.{Delta as Deltas};
ghost use Rattle.dg_fold.specs.Parts.{beside, deltas_in_part, parts_in, Folds, StandsOnTop};

use crate::column::{part_delta, push_part};
use crate::fault::FoldFault;
use crate::gate::Gate;
use crate::halves::{Weighed, all_weigh, cut_at, middle_of};
use crate::net::joined;
use crate::part::{Bytes, Part};
use dg_delta::{Delta, DeltaStack};
use std::alloc::Global;
use std::thread::{Threads, join};

/// A half of so many bytes, or of fewer, is composed without a further thread: starting one takes longer.
const ALONE_BYTES_MAX: u64 = 1_048_576;

// One composition and then another, or the first fault.
fn both(first: Result<Delta, FoldFault>, then: Result<Delta, FoldFault>) -> Result<Delta, FoldFault>
    ensures { (a b : Result (List Deltas) (Key × Column)) → Folds first a → Folds then b → Folds result (beside a b) }
{
    let first = first?;
    let then = then?;
    Ok(joined(first, then)?)
}

impl Weighed for Part {
    // The bytes of a part, or the greatest number where there are more; at least 1.
    fn weight(&self) -> u64 {
        let bytes = &self.bytes;
        let structure = bytes.structure.len() as u64;
        let node_attr = bytes.node_attr.len() as u64;
        let edge_attr = bytes.edge_attr.len() as u64;
        let all = structure
            .saturating_add(node_attr)
            .saturating_add(edge_attr);
        all.max(1)
    }
}

// The composition of the parts, in order, over so many names, by halves and in this thread alone. `Damaged` names the
// first part, and of it the first column, that is damaged, exactly where one is.
fn compose_alone<R: Threads>(
    rt: &R,
    alloc: Global,
    name_count: u32,
    parts: &[Part],
) -> Result<Delta, FoldFault>
    ensures { Folds result (parts_in name_count parts.now) }
{
    if parts.len() <= 1 {
        return match parts.first() {
            None => Ok(Delta::new(alloc)),
            Some(part) => part_delta(rt, alloc, name_count, part),
        };
    }
    let (left, right) = parts.split_at(middle_of(parts));
    let first = compose_alone(rt, alloc, name_count, left);
    let then = compose_alone(rt, alloc, name_count, right);
    both(first, then)
}

// Puts the delta of a part on top, whose bytes are given back.
fn push_freed<R: Threads>(
    rt: &R,
    alloc: Global,
    name_count: u32,
    part: &mut Part,
    stack: &mut DeltaStack,
) -> Result<(), FoldFault>
    ensures ok { OnOk result (StandsOnTop (deltas_in_part name_count part.old) (stacked stack.old) (stacked stack.new)) }
    ensures err { IfErr result (λ f. Folds (Err f) (deltas_in_part name_count part.old)) }
{
    let pushed = push_part(rt, alloc, name_count, part, stack);
    part.bytes = Bytes {
        structure: Vec::new(alloc),
        node_attr: Vec::new(alloc),
        edge_attr: Vec::new(alloc),
    };
    pushed
}

/// Puts the composition of the parts on top; the bytes of each are given back once they are decoded. The parts are cut where
/// those in front come to two thirds of the bytes, since what is composed with these stands twice meanwhile, in `spare` too.
pub(crate) fn push_composed<R: Threads>(
    rt: &R,
    alloc: Global,
    name_count: u32,
    parts: &mut [Part],
    stack: &mut DeltaStack,
    spare: &mut DeltaStack,
) -> Result<(), FoldFault>
    ensures ok { OnOk result (StandsOnTop (parts_in name_count parts.old) (stacked stack.old) (stacked stack.new)) }
    ensures err { IfErr result (λ f. Folds (Err f) (parts_in name_count parts.old)) }
{
    match parts.len() {
        0 => Ok(()),
        1 => push_freed(rt, alloc, name_count, &mut parts[0], stack),
        _ => {
            let weight = all_weigh(parts) / 3 * 2;
            let middle = cut_at(parts, weight);
            let (left, right) = parts.split_at_mut(middle);
            let first = stack.height();
            push_composed(rt, alloc, name_count, left, stack, spare)?;
            let then = stack.height();
            push_composed(rt, alloc, name_count, right, stack, spare)?;
            stack.compose(spare, first, then)?;
            Ok(())
        }
    }
}

/// The composition of the parts, in order, over so many names. The parts are cut in two where their bytes
/// are halved, and the halves are composed in two threads; a half of more than 1 MiB is cut again. Before
/// its work, the left half of each such cut passes the gate with `false`, and the right half with `true`.
/// `Damaged` names the first part, and of it the first column, that is damaged, exactly where one is.
pub fn compose_plan<R: Threads + Sync, G: Gate>(
    rt: &R,
    alloc: Global,
    gate: &G,
    name_count: u32,
    parts: &[Part],
) -> Result<Delta, FoldFault>
    ensures { Folds result (parts_in name_count parts.now) }
{
    if parts.len() <= 1 {
        return compose_alone(rt, alloc, name_count, parts);
    }
    let (left, right) = parts.split_at(middle_of(parts));
    let (first, then) = join(
        rt,
        || -> Result<Delta, FoldFault>
            requires { IsSync R.row × IsSync G.row }
            ensures { Folds result (parts_in name_count left.entry.now) }
        {
            gate.enter(false);
            if all_weigh(left) <= ALONE_BYTES_MAX {
                compose_alone(rt, alloc, name_count, left)
            } else {
                compose_plan(rt, alloc, gate, name_count, left)
            }
        },
        || -> Result<Delta, FoldFault>
            requires { IsSync R.row × IsSync G.row }
            ensures { Folds result (parts_in name_count right.entry.now) }
        {
            gate.enter(true);
            if all_weigh(right) <= ALONE_BYTES_MAX {
                compose_alone(rt, alloc, name_count, right)
            } else {
                compose_plan(rt, alloc, gate, name_count, right)
            }
        },
    );
    both(first, then)
}
