//! Which events of an index are read for a span.
ghost use Rattle.std.specs.Prelude.{◌≡◌, ◌≤◌, ◌<◌, ◌-◌, ◌*◌, [], drop, take};
ghost use Rattle.dg_dumping.specs.SpanText.{events_within};
ghost use Rattle.dg_heard.specs.Heard.{list_total};
ghost use Rattle.dg_history.specs.History.{History, events_of};
ghost use Rattle.dg_history.specs.LegalHistory.{IsLegal};
ghost use Rattle.dg_index.specs.OpenedIndex.{event_total, opened_of};

use crate::span::Span;
use dg_file::Index;
use dg_heard::{first_open, list_total};

/// Events of an index, by their numbers.
#[derive(Clone, Copy)]
pub struct EventRange {
    /// The number of the first.
    pub start: u64,
    /// The number behind that of the last.
    pub stop: u64,
}

// The first closed list that does not end before the span, or their number where each one does. Found by halves.
fn first_list(index: &Index, span: Span) -> u32
    ensures within { result ≤ list_total index.now.opening }
    ensures early { (z : History) → IsLegal z → (opened_of z).index ≡ index.now.opening
        → events_within span (take (result * index.now.opening.params.l) (events_of z)) ≡ [] }
{
    index.facts();
    first_open(index.catalogue(), 0, list_total(index), span.from)
}

// The number behind that of the last event that is read, where the lists before this one are not. Found by halves.
fn stop_behind(index: &Index, first: u32, span: Span) -> u64
    requires within { first ≤ list_total index.now.opening }
    ensures behind { first * index.now.opening.params.l ≤ result }
    ensures late { (z : History) → IsLegal z → (opened_of z).index ≡ index.now.opening → events_within span (drop result (events_of z)) ≡ [] }
{
    index.facts();
    let Some(until) = span.until else {
        return index.events_len();
    };
    let lists = index.catalogue();
    let total = list_total(index);
    let last = first_open(lists, first, total, until);
    if last == total {
        return index.events_len();
    }
    let size = u64::from(index.params().l);
    let start = u64::from(last) * size;
    match lists.list_ends(last) {
        Some(ends) => {
            if ends.first < until {
                return start + size;
            }
            start
        }
        None => start + size,
    }
}

/// Among which events all those are that are in the span: those of the closed lists that may have one, and where no list
/// ends behind the span, those behind the lists.
pub fn events_to_read(index: &Index, span: Span) -> EventRange
    ensures among { (z : History) → IsLegal z → (opened_of z).index ≡ index.now.opening
        → events_within span (events_of z) ≡ events_within span (take (result.stop - result.start) (drop result.start (events_of z))) }
{
    index.facts();
    let first = first_list(index, span);
    EventRange {
        start: u64::from(first) * u64::from(index.params().l),
        stop: stop_behind(index, first, span),
    }
}
