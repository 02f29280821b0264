//! The law that joins plans and certificates, the clause of a function that does nothing.
ghost use Rattle.dg_path.specs.PlanLines.{PlansAreCertified};

/// The lines of a plan whose potentials certify it are valid. Does nothing.
pub fn law_plans_are_certified()
    ensures { PlansAreCertified }
{}
