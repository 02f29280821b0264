//! The range and the names of the parts together.
ghost use Rattle.std.specs.Prelude.{◌≡◌};
ghost use Rattle.dg_part_runs.specs.HeldParts.{ends_kept, names_kept};
ghost use Rattle.dg_part_runs.specs.PartTimes.{joined};

use dg_names::Names;
use dg_session::Session;

// The range of two ranges: from the earlier first instant to the later last one.
fn joined(left: Option<(u64, u64)>, right: Option<(u64, u64)>) -> Option<(u64, u64)>
    ensures { result ≡ joined left right }
{
    match (left, right) {
        (None, _) => right,
        (_, None) => left,
        (Some(a), Some(b)) => Some((a.0.min(b.0), a.1.max(b.1))),
    }
}

/// The first and the last instant of all parts together, where one has an event.
pub(crate) fn ends_of(sessions: &[Session]) -> Option<(u64, u64)>
    ensures { result ≡ ends_kept sessions.now }
{
    let mut ends = None;
    for session in sessions {
        ends = joined(ends, session.span());
    }
    ends
}

/// The names of the first part that has an event, or these, where none has one.
pub(crate) fn names_of<'a>(none: &'a Names, sessions: &'a [Session]) -> &'a Names
    ensures { result.now ≡ names_kept none.now sessions.now }
{
    for session in sessions {
        if session.span().is_some() {
            return session.names();
        }
    }
    none
}
