//! What the exact steps of a tree lead to, over the records of a history.

ghost use Rattle.dg_steps.specs.NodeSteps.{StepsAreExact};

/// Over the records of a history the step between two nodes of a tree is the exact delta from the set of the one to that of
/// the other.
pub fn law_steps_are_exact()
    ensures { StepsAreExact }
{}
