//! How the current graph of a pool, where there is one, goes on with a batch: by the nets of the two halves of its
//! events. They are not composed, so that a long batch takes no memory for what both of them name.

ghost use Rattle.std.specs.Prelude.{◌≡◌, ℕ, IfOk, IfSome, OnOk};
ghost use Rattle.dg_append.specs.BatchNets.{led_by};
ghost use Rattle.dg_append.specs.KeptBatches.{AreNetsFor, GoesOnBy, HaveCellsFor, LeadPast};
ghost use Rattle.dg_append.specs.Overlays.{SameOverlay, pool_in};
ghost use Rattle.dg_pool.specs.Graphs.{SameGraphs, graph_now, slot_graph};

use dg_graph::Event;
use dg_net::{Delta, whole_net};
use dg_pool::Pool;
use std::alloc::{AllocError, Global};
use std::boxed::Box;

/// The nets of the events' two halves.
#[derive(Drop)]
pub(crate) struct Nets {
    pub(crate) earlier: Delta,
    pub(crate) later: Delta,
}

// The nets of the events' two halves.
fn nets_of(alloc: Global, events: &[Event]) -> Result<Nets, AllocError>
    ensures { IfOk result (λ nets. LeadPast nets events.now) }
{
    let (earlier, later) = events.split_at(events.len() / 2);
    let earlier = whole_net(alloc, earlier)?;
    let later = whole_net(alloc, later)?;
    Ok(Nets { earlier, later })
}

// Makes a cell in the pool for each element that one of the nets brings. No graph changes.
fn make_cells(pool: &mut Pool, nets: &Nets) -> Result<(), AllocError>
    ensures graphs { SameGraphs pool.old pool.new }
    ensures cells { OnOk result (HaveCellsFor pool.new.rows nets.now) }
{
    let earlier = nets.earlier.plus();
    let later = nets.later.plus();
    pool.reserve(earlier.items().len().saturating_add(later.items().len()))?;
    pool.make_cells(earlier)?;
    pool.make_cells(later)?;
    Ok(())
}

/// The nets of the events, where there is a pool, with a cell in it for each element that one of them brings. No graph
/// changes. An `Err` says that memory ran out.
pub(crate) fn make_nets(
    alloc: Global,
    events: &[Event],
    pool: &mut Option<Box<Pool>>,
) -> Result<Option<Nets>, AllocError>
    ensures graphs { SameOverlay (pool_in pool.old) (pool_in pool.new) }
    ensures cells { IfOk result (AreNetsFor (pool_in pool.new)) }
    ensures leads { IfOk result (λ nets. IfSome nets (λ n. LeadPast n events.now)) }
{
    match pool {
        Some(pool) => {
            let nets = nets_of(alloc, events)?;
            make_cells(pool, &nets)?;
            Ok(Some(nets))
        }
        None => Ok(None),
    }
}

// Takes the current graph of the pool on by the nets, the earlier first. No other graph changes.
fn pass_nets(pool: &mut Pool, nets: &Nets)
    requires { HaveCellsFor pool.old.rows nets.now }
    ensures now { graph_now pool.new ≡ led_by nets.now.earlier nets.now.later (graph_now pool.old) }
    ensures slots { (s : ℕ) → slot_graph pool.new s ≡ slot_graph pool.old s }
{
    pool.pass(&nets.earlier);
    pool.pass(&nets.later);
}

/// Takes the current graph of the pool, where there is one, on by the nets. No other graph changes.
pub(crate) fn pass_batch(pool: &mut Option<Box<Pool>>, nets: &Option<Nets>)
    requires { AreNetsFor (pool_in pool.old) nets.now }
    ensures { GoesOnBy nets.now (pool_in pool.old) (pool_in pool.new) }
{
    if let (Some(pool), Some(nets)) = (pool, nets) {
        pass_nets(pool, nets);
    }
}
