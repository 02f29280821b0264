//! The laws of plans and certificates, each the clause of a function that does nothing.
ghost use Rattle.dg_plan.specs.PlanLaws.{PlansAreLeast, PlansAreOne, CertificatesHold};

/// A plan is least among all walks from where it may begin. Does nothing.
pub fn law_plans_are_least()
    ensures { PlansAreLeast }
{}

/// A node has one plan at most. Does nothing.
pub fn law_plans_are_one()
    ensures { PlansAreOne }
{}

/// A certificate shows that no walk from the root to the target weighs less. Does nothing.
pub fn law_certificates_hold()
    ensures { CertificatesHold }
{}
