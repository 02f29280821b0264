//! Instants, each of them once.
ghost use Rattle.std.specs.Prelude.{◌≡◌, IfOk, OnOk};
ghost use Rattle.dg_messages.specs.Once.{each_once, is_among, with_instant};

use std::alloc::{AllocError, Global};

// Whether the instant is one of these.
fn is_among(t: u64, instants: &[u64]) -> bool
    ensures { result ≡ is_among t instants.now }
{
    instants.iter().any(|u| *u == t)
}

// Adds the instant, where it is not among these.
fn add_once(instants: &mut Vec<u64>, t: u64) -> Result<(), AllocError>
    ensures { OnOk result (instants.new.items ≡ with_instant t instants.old.items) }
{
    if is_among(t, instants) {
        return Ok(());
    }
    instants.push(t)?;
    Ok(())
}

/// Each of the instants once, in the order in which they first come. Each is compared to those before it. An `Err` says
/// that memory ran out.
pub(crate) fn each_once(alloc: Global, times: &[u64]) -> Result<Vec<u64>, AllocError>
    ensures { IfOk result (λ instants. instants.items ≡ each_once times.now) }
{
    let mut instants = Vec::with_capacity(alloc, times.len())?;
    for n in 0..times.len() {
        add_once(&mut instants, times[n])?;
    }
    Ok(instants)
}
