//! The lines of a certificate, and what is said of them.
use dg_history::NodeId;

/// A line of a certificate, as a script writes it: a step of a walk, or the potential of a node.
#[derive(Clone, Copy)]
pub enum PlanLine {
    /// A step: the number of its edge, the node that it enters, and its weight in bytes.
    Step {
        edge: u32,
        head: NodeId,
        weight: u64,
    },
    /// The potential of a node, in bytes.
    Potential {
        node: NodeId,
        value: u64,
    },
}

/// What is said of the lines of a certificate. Lines and steps count from 1.
#[derive(Clone, Copy)]
pub enum Verdict {
    /// No walk to the target weighs less than this one.
    Valid,
    /// This line is the first bad one: it is in no form, or out of order.
    Line(u32),
    /// This step is the first that is not as the graph has it; or it is one past the last, and the walk
    /// ends elsewhere than at the target.
    Step(u32),
    /// The potential of the root is not 0, or this node is the head of the first edge whose head's
    /// potential is above its tail's by more than the edge weighs.
    Potential(NodeId),
    /// The target's potential is not the weight of the walk.
    NotTight,
}
