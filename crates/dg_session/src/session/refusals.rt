//! Why a command is refused by what a session keeps.

ghost use Rattle.std.specs.Prelude.{◌≡◌, ◌≤◌, ◌&&◌, not, nat_le, true, is_some};
ghost use Rattle.std.specs.List.{list_any};
ghost use Rattle.dg_graph.specs.declared.limits.TheConstants.{SKEW_MAX};
ghost use Rattle.dg_history.specs.History.{are_parameters, in_range};
ghost use Rattle.dg_machine.specs.Needs.{in_range_or_next, is_out_of_range, is_set};
ghost use Rattle.dg_session.specs.NeedsParts.{of_handle, of_history, of_index, of_lines, of_names, of_room};
ghost use Rattle.dg_session.specs.Parts.{Parts};
ghost use Rattle.dg_ask.specs.HeldIndex.{has_node_held};
ghost use Rattle.dg_session.specs.Session.{is_too_full, is_wide_held, refused_by};

use super::Session;
use crate::needs::Needs;
use dg_ask::has_node;
use dg_graph::{Function, SKEW_MAX};
use dg_history::{NodeId, Params, are_parameters};
use dg_machine::{HANDLE_MAX, INDEXES_MAX, LIVE_HANDLES_MAX, Refusal, Shown, Stands};
use dg_text::NAMES_MAX;

// A line may bring the text of a key and that of a value.
const NAMES_OF_A_LINE: u64 = 2;

impl Session {
    // The first refusal of a command that needs this, behind which so many lines were read.
    pub(super) fn refused(&self, needs: &Needs<'_, '_>, read: u32) -> Option<Refusal>
        requires node { is_some needs.now.node ≡ true → needs.now.index ≡ true }
        ensures { result ≡ refused_by self.now.parts read needs.now }
    {
        if let Some(refusal) = refused_lines(needs, read) {
            return Some(refusal);
        }
        if let Some(refusal) = self.refused_index(needs) {
            return Some(refusal);
        }
        if let Some(refusal) = self.refused_history(needs) {
            return Some(refusal);
        }
        if let Some(refusal) = self.refused_handle(needs) {
            return Some(refusal);
        }
        if let Some(refusal) = self.refused_names(needs) {
            return Some(refusal);
        }
        self.refused_room(needs)
    }

    // The refusal by the index: that it lacks or is there, its form, or the parameters of one that is to be made.
    fn refused_index(&self, needs: &Needs<'_, '_>) -> Option<Refusal>
        ensures { result ≡ refused_by self.now.parts 0 (of_index needs.now) }
    {
        if needs.index && !self.has_index() {
            return Some(Refusal::NoIndex);
        }
        if needs.parameters.is_some() && self.has_index() {
            return Some(Refusal::IndexExists);
        }
        if needs.first_form && self.is_wide() {
            return Some(Refusal::NewFormat);
        }
        match needs.parameters {
            Some((l, k, share)) if !are_in_range(l, k, share) => Some(Refusal::Parameters),
            _ => None,
        }
    }

    // The refusal by the events: that there are some, or too many with those that come, or that an instant is not among
    // theirs.
    fn refused_history(&self, needs: &Needs<'_, '_>) -> Option<Refusal>
        ensures { result ≡ refused_by self.now.parts 0 (of_history needs.now) }
    {
        let ends = self.span();
        if needs.unloaded && ends.is_some() {
            return Some(Refusal::AlreadyLoaded);
        }
        if needs.changes > 0 && self.is_too_full(needs.changes) {
            return Some(Refusal::HistoryFull(self.events_held(), u64::from(needs.changes)));
        }
        if is_out_of_range(ends, needs.instants, needs.until) {
            return Some(Refusal::OutOfRange(ends));
        }
        None
    }

    // The refusal by a handle: that it is not live, stands for a set, or is rested on.
    fn refused_handle(&self, needs: &Needs<'_, '_>) -> Option<Refusal>
        ensures { result ≡ refused_by self.now.parts 0 (of_handle needs.now) }
    {
        if let Some(handle) = needs.handle {
            let stands = self.held.handles.stands(handle);
            if stands.is_none() {
                return Some(Refusal::UnknownHandle(handle));
            }
            if needs.overlay && is_set(stands) {
                return Some(Refusal::NotAnOverlay(handle));
            }
        }
        let unused = needs.unused?;
        let dependent = self.held.handles.dependent(unused)?;
        Some(Refusal::InUse(dependent))
    }

    // The refusal by a node that the index has not, or by a key that is no name, is indexed or is not.
    fn refused_names(&self, needs: &Needs<'_, '_>) -> Option<Refusal>
        requires there { is_some needs.now.node ≡ true → is_some self.now.parts.index ≡ true }
        ensures { result ≡ refused_by self.now.parts 0 (of_names needs.now) }
    {
        if let Some(node) = needs.node {
            if !self.has_node(node) {
                return Some(Refusal::UnknownNode);
            }
        }
        if let Some(key) = needs.unindexed {
            if self.held.live.history.names.number(key).is_none() {
                return Some(Refusal::UnknownKey);
            }
        }
        if let Some(key) = needs.indexed {
            if self.index_of(key).is_none() {
                return Some(Refusal::NotIndexed);
            }
        }
        if let Some(key) = needs.unindexed {
            if self.index_of(key).is_some() {
                return Some(Refusal::AlreadyIndexed);
            }
            if self.indexes.len() >= INDEXES_MAX {
                return Some(Refusal::IndexesFull);
            }
        }
        None
    }

    // The refusal of new handles.
    fn refused_room(&self, needs: &Needs<'_, '_>) -> Option<Refusal>
        ensures { result ≡ refused_by self.now.parts 0 (of_room needs.now) }
    {
        if needs.handles == 0 {
            return None;
        }
        let asked = u32::from(needs.handles);
        let live = self.held.handles.live();
        if (live + asked) as usize > LIVE_HANDLES_MAX {
            return Some(Refusal::PoolFull(live, asked));
        }
        if self.held.handles.next() + u64::from(asked) > u64::from(HANDLE_MAX) + 1 {
            return Some(Refusal::HandlesSpent);
        }
        None
    }

    // Whether the file goes on in the second form; without an index it would be made in that.
    fn is_wide(&self) -> bool
        ensures { result ≡ is_wide_held self.now.parts.index }
    {
        match &self.held.live.history.index {
            Some(index) => index.is_wide(),
            None => true,
        }
    }

    // Whether so many more events, or the names that so many lines may bring, are too many.
    fn is_too_full(&self, count: u32) -> bool
        ensures { result ≡ is_too_full self.now.parts count }
    {
        let count = u64::from(count);
        let events = self.events_held() + count;
        let names = u64::from(self.held.live.history.names.len()) + NAMES_OF_A_LINE * count;
        self.limits.events < events || u64::from(NAMES_MAX) < names
    }

    // Whether the index has this leaf or interior node.
    fn has_node(&self, node: NodeId) -> bool
        requires { is_some self.now.parts.index ≡ true }
        ensures { result ≡ has_node_held self.now.parts.index node }
    {
        let Some(index) = &self.held.live.history.index else {
            unreachable!()
        };
        has_node(index, node)
    }
}

// The refusal by the lines, of which so many were read: that more follow the command.
fn refused_lines(needs: &Needs<'_, '_>, read: u32) -> Option<Refusal>
    ensures { (p : Parts) → result ≡ refused_by p read (of_lines needs.now) }
{
    let count = needs.lines?;
    if read < count {
        Some(Refusal::ShortBatch(read, count))
    } else {
        None
    }
}

// Whether the leaf list size, the arity and the share are in their ranges.
fn are_in_range(l: u32, k: u32, share: u32) -> bool
    ensures { result ≡ (are_parameters l k && nat_le share SKEW_MAX) }
{
    let function = Function::Union;
    are_parameters(Params { l, k, function }) && share <= u32::from(SKEW_MAX)
}

// Whether an instant does not lie between the ends, or the last is neither there nor behind them.
fn is_out_of_range(ends: Option<(u64, u64)>, times: &[u64], until: Option<u64>) -> bool
    ensures { result ≡ is_out_of_range ends times.now until }
{
    let is_out = is_any_out(ends, times);
    match until {
        Some(until) => is_out || !in_range_or_next(ends, until),
        None => is_out,
    }
}

// Whether one of the instants does not lie between the ends.
fn is_any_out(ends: Option<(u64, u64)>, times: &[u64]) -> bool
    ensures { result ≡ list_any (λ t. not (in_range ends t)) times.now }
{
    times.iter().any(|t| !in_range(ends, *t))
}

// Whether the instant lies between the ends.
fn in_range(ends: Option<(u64, u64)>, t: u64) -> bool
    ensures { result ≡ in_range ends t }
{
    match ends {
        Some((first, last)) => first <= t && t <= last,
        None => false,
    }
}

// Whether the instant lies between the ends, or is the one behind the last.
fn in_range_or_next(ends: Option<(u64, u64)>, t: u64) -> bool
    ensures { result ≡ in_range_or_next ends t }
{
    match ends {
        Some((_, last)) => in_range(ends, t) || last < t && t - last == 1,
        None => false,
    }
}

// Whether a handle stands for a set, and not for a graph as of an instant.
fn is_set(stands: Option<Stands>) -> bool
    ensures { result ≡ is_set stands }
{
    match stands {
        Some(stands) => !matches!(stands.what, Shown::Overlay { .. }),
        None => false,
    }
}
