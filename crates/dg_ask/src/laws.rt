//! The law that `certify` takes what `plan` prints, the clause of a function that does nothing.
ghost use Rattle.dg_ask.specs.PrintedPlans.{PrintedPlansAreValid};

use dg_path::law_plans_are_certified;
use dg_planner::{law_nodes_are_distinct, law_plans_are_certificates};

/// The lines that `plan` prints are valid, where they follow `certify` for the same instant and the same
/// columns. Does nothing.
pub fn law_printed_plans_are_valid()
    ensures { PrintedPlansAreValid }
{
    law_nodes_are_distinct();
    law_plans_are_certificates();
    law_plans_are_certified();
}
