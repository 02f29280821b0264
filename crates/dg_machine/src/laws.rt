//! The law that the machine is determined, the clause of a function that does nothing.
ghost use Rattle.dg_machine.specs.MachineLaws.{IsDetermined};

/// The machine gives each entry one reply and one next state, but for want of memory and a failed
/// read. Does nothing.
pub fn law_machine_is_determined()
    ensures { IsDetermined }
{}
