//! What decides which nodes an index has: the node at a place, its parent and its children.
ghost use Rattle.std.specs.Prelude.{◌≡◌, ◌≤◌, ◌+◌, ◌-◌, ◌*◌, ◌/◌, ◌^◌, ◌&&◌, cond, nat_le, get_or, Some, None};
ghost use Rattle.dg_graph.specs.declared.function.Function.{Function};
ghost use Rattle.dg_index.specs.Hierarchy.{leaves, exists, parent, children};
ghost use Rattle.dg_history.specs.declared.limits.TheConstants.{EVENTS_MAX};
ghost use Rattle.dg_catalogue.specs.Shapes.{IsShape, made_with, node_of_height, if_exists, parent_of, child_of};

use dg_history::NodeId;

/// What decides which nodes an index has. The parameters are those with which an index may be made,
/// and there are at most `EVENTS_MAX` events.
#[derive(Clone, Copy)]
pub struct Shape {
    /// The leaf list size: events from one leaf to the next.
    pub l: u32,
    /// The arity: children of an interior node.
    pub k: u32,
    /// The events of the history.
    pub events: u64,
}

// The node of this number at a height, where the leaves have height 0.
fn node_at(height: u32, number: u32) -> NodeId
    ensures { result ≡ node_of_height height number }
{
    if height == 0 {
        NodeId::Leaf(number)
    } else {
        NodeId::Inner(height, number)
    }
}

// The number of the interior node of which the node with this number is a child.
fn number_above(arity: u32, number: u32) -> u32
    requires arity { 2 ≤ arity }
    requires some { 1 ≤ number }
    ensures { result ≡ parent arity number }
{
    (number - 1) / arity + 1
}

// The child at this number, from 1, among those of the node with the number `above` at a height.
fn child_at(arity: u32, height: u32, above: u32, number: u32) -> Option<NodeId>
    requires height { 1 ≤ height }
    requires above { 1 ≤ above }
    requires few { above * arity ≤ EVENTS_MAX }
    ensures { result ≡ cond (nat_le 1 number && nat_le number arity) (Some (node_of_height (height - 1) (get_or (children arity above) (number - 1) 0))) None }
{
    if number < 1 {
        return None;
    }
    if number > arity {
        return None;
    }
    Some(node_at(height - 1, (above - 1) * arity + number))
}

impl Shape {
    /// How many leaves there are: one behind each closed list.
    pub fn leaves(&self) -> u32
        requires { IsShape self.now }
        ensures leaves { (f : Function) → result ≡ leaves (made_with f self.now) self.now.events }
        ensures few { result + result ≤ self.now.events }
    {
        (self.events / u64::from(self.l)) as u32
    }

    // How many nodes there are at a height. Stops at the first height that has none.
    fn nodes_at(&self, height: u32) -> u32
        requires { IsShape self.now }
        ensures { result ≡ self.now.events / self.now.l / self.now.k ^ height }
    {
        let mut nodes = self.leaves();
        let mut below = 0;
        while below < height && nodes > 0 {
            nodes /= self.k;
            below += 1;
        }
        nodes
    }

    // Whether there are so many nodes at a height.
    fn has_at(&self, height: u32, number: u32) -> bool
        requires { IsShape self.now }
        ensures { result ≡ (nat_le 1 number && nat_le (number * self.now.k ^ height) (self.now.events / self.now.l)) }
    {
        1 <= number && number <= self.nodes_at(height)
    }

    /// Whether the node is there.
    pub fn exists(&self, node: NodeId) -> bool
        requires { IsShape self.now }
        ensures { (f : Function) → result ≡ exists (made_with f self.now) self.now.events node }
    {
        match node {
            NodeId::Root => true,
            NodeId::Now | NodeId::Recent => 1 <= self.events,
            NodeId::Leaf(leaf) => 1 <= leaf && leaf <= self.leaves(),
            NodeId::List(list) => list < self.leaves(),
            NodeId::Inner(height, number) => 1 <= height && self.has_at(height, number),
        }
    }

    // The node, if it is there.
    fn if_exists(&self, node: NodeId) -> Option<NodeId>
        requires { IsShape self.now }
        ensures { (f : Function) → result ≡ if_exists (made_with f self.now) self.now.events node }
    {
        if self.exists(node) { Some(node) } else { None }
    }

    /// The interior node of which a leaf or an interior node is a child. `None` exactly where the node
    /// is neither of both or is not there, and where no interior node stands above it.
    pub fn parent(&self, node: NodeId) -> Option<NodeId>
        requires { IsShape self.now }
        ensures { (f : Function) → result ≡ parent_of (made_with f self.now) self.now.events node }
    {
        if !self.exists(node) {
            return None;
        }
        match node {
            NodeId::Leaf(leaf) => self.if_exists(NodeId::Inner(1, number_above(self.k, leaf))),
            NodeId::Inner(height, number) => {
                self.if_exists(NodeId::Inner(height + 1, number_above(self.k, number)))
            }
            _ => None,
        }
    }

    /// The child of an interior node at this number among its own, from 1. `None` exactly where the node
    /// is no interior node or is not there, and where the number is 0 or above the arity.
    pub fn child(&self, node: NodeId, number: u32) -> Option<NodeId>
        requires { IsShape self.now }
        ensures { (f : Function) → result ≡ child_of (made_with f self.now) self.now.events node number }
    {
        if !self.exists(node) {
            return None;
        }
        match node {
            NodeId::Inner(height, above) => child_at(self.k, height, above, number),
            _ => None,
        }
    }
}
