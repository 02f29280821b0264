//! The edges that leave each node, or enter it, as lists threaded through the edges.
ghost use Rattle.std.specs.Prelude.{◌≡◌, ◌<◌, ◌^◌, length, IfOk};
ghost use Rattle.dg_path.specs.Search.{AreLinks, AreAdjacent, end_of};

use crate::Link;
use std::alloc::{AllocError, Global};

/// The edges that leave each node, or those that enter it, in rising order: a list for each node, which is
/// threaded through the edges. The number of edges stands where there is no further one.
#[derive(Drop)]
pub struct Adjacency {
    /// For each node the number of the first edge of its list.
    pub first: Vec<u32>,
    /// For each edge the number of the next one in the same list.
    pub next: Vec<u32>,
}

/// The node that an edge leaves, where `leaving`, and else the node that it enters.
fn end(link: &Link, leaving: bool) -> u32
    ensures { result ≡ end_of leaving link.now }
{
    if leaving { link.tail } else { link.head }
}

/// The lists of the edges that leave each of so many nodes, where `leaving`, and else of those that enter
/// it. Takes time and memory for each node and each edge once. An `Err` says that memory ran out.
pub fn thread(
    alloc: Global,
    links: &[Link],
    nodes: usize,
    leaving: bool,
) -> Result<Adjacency, AllocError>
    requires links { AreLinks links.now nodes }
    requires few { length links.now < 2 ^ 32 }
    ensures chained { IfOk result (λ c. AreAdjacent leaving links.now c.first.items c.next.items nodes) }
{
    let mut first = vec![in alloc; links.len() as u32; nodes]?;
    let mut next = vec![in alloc; 0; links.len()]?;
    // From the last edge on, so that each list rises.
    for i in (0..links.len()).rev() {
        let node = end(&links[i], leaving) as usize;
        next[i] = first[node];
        first[node] = i as u32;
    }
    Ok(Adjacency { first, next })
}
