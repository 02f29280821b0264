//! The law of the beginning of a session. The function does nothing: its clause is the law.

ghost use Rattle.dg_session.specs.SessionStart.{BeginsAreDetermined};

use dg_start::law_starts_are_determined;

/// An image comes to one beginning of a session, checked or not. Does nothing.
pub fn law_begins_are_determined()
    ensures { BeginsAreDetermined }
{
    law_starts_are_determined();
}
