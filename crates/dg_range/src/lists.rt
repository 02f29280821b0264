//! The lists whose times meet a range of instants.
ghost use Rattle.std.specs.Prelude.{◌≡◌, ◌-◌, ◌<◌, ◌≤◌, ℕ, true, false, filter};
ghost use Rattle.dg_catalogue.specs.Held.{ends_of};
ghost use Rattle.dg_catalogue.specs.Points.{ListsRise};
ghost use Rattle.dg_heard.specs.Heard.{list_total};
ghost use Rattle.dg_history.specs.declared.node.Key.TheVariants as a_key;
ghost use Rattle.dg_index.specs.Hierarchy.{numbers};
ghost use Rattle.dg_index.specs.OpenedIndex.{entry_at};
ghost use Rattle.dg_range.specs.Ranges.{begins_before, meets};

use dg_catalogue::Catalogue;
use dg_file::Index;
use dg_heard::{first_open, list_total};

// Whether a list is held and begins before the instant.
fn begins_before(lists: &Catalogue, list: u32, t: u64) -> bool
    ensures { result ≡ begins_before t (ends_of lists.now list) }
{
    match lists.list_ends(list) {
        Some(ends) => ends.first < t,
        None => false,
    }
}

// The first list from the number `from` on that does not begin before the instant, or `to` where each one below it
// does. No list begins before an earlier one, so it is found by halves.
fn first_later(lists: &Catalogue, from: u32, to: u32, t: u64) -> u32
    requires rise { ListsRise lists.now }
    requires ordered { from ≤ to }
    ensures within { (from ≤ result) × (result ≤ to) }
    ensures begun { (i : ℕ) → from ≤ i → i < result → begins_before t (ends_of lists.now i) ≡ true }
    ensures later { (i : ℕ) → result ≤ i → i < to → begins_before t (ends_of lists.now i) ≡ false }
{
    let mut low = from;
    let mut high = to;
    while low < high {
        let middle = low + (high - low) / 2;
        if begins_before(lists, middle, t) {
            low = middle + 1;
        } else {
            high = middle;
        }
    }
    low
}

/// The lists that may have an event from the instant `from` on and before `until`: those from the first number on and
/// before the second. Two searches by halves among the lists.
pub fn lists_between(index: &Index, from: u64, until: u64) -> (u32, u32)
    ensures within { (result.0 ≤ result.1) × (result.1 ≤ list_total index.now.opening) }
    ensures met { filter (λ (i : ℕ). meets from until (entry_at index.now.opening (a_key.List i)).ends) (numbers 0 (list_total index.now.opening))
        ≡ numbers result.0 (result.1 - result.0) }
{
    if until <= from {
        return (0, 0);
    }
    let total = list_total(index);
    let lists = index.catalogue();
    let low = first_open(lists, 0, total, from);
    (low, first_later(lists, low, total, until))
}
