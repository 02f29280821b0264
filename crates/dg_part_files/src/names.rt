//! The names of a part: all names of the history.

ghost use Rattle.std.specs.Prelude.{◌≡◌, IfErr, IfOk, OnOk, [], true};
ghost use Rattle.dg_index.specs.OpenedIndex.{may_be_named};
ghost use Rattle.dg_part_files.specs.PartFaults.{IsUncopied};

use crate::fault::PartFault;
use dg_names::{Names, is_name};
use dg_seed::Seed;
use std::alloc::Global;

/// A copy of the names, which hashes with the seed. `PartFault::Name` for the first text that may not be a name,
/// `PartFault::Memory` for want of memory.
pub(crate) fn copy_names(alloc: Global, seed: Seed, names: &Names) -> Result<Names, PartFault>
    ensures copied { IfOk result (λ copy. copy ≡ names.now) }
    ensures named { OnOk result (may_be_named [] names.now ≡ true) }
    ensures fails { IfErr result (IsUncopied names.now) }
{
    // Its clauses tell that each text stands once.
    names.facts();
    let mut copy = Names::new(alloc, seed);
    for number in 0..names.len() {
        let Some(text) = names.text(number) else {
            unreachable!()
        };
        if !is_name(text) {
            return Err(PartFault::Name(number));
        }
        copy.add(text)?;
    }
    Ok(copy)
}
