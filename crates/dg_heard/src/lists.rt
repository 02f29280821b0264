//! The lists between whose times an instant lies.
ghost use Rattle.std.specs.Prelude.{◌≡◌, ◌<◌, ◌≤◌, ℕ, true, false, IfNone, IfSome};
ghost use Rattle.dg_catalogue.specs.Entries.{column_length_in};
ghost use Rattle.dg_catalogue.specs.Held.{ends_of};
ghost use Rattle.dg_catalogue.specs.Points.{ListsRise};
ghost use Rattle.dg_graph.specs.declared.element.Column.TheVariants as column;
ghost use Rattle.dg_heard.specs.Heard.{end_before, heard_bytes, is_heard, lies_between, list_total};
ghost use Rattle.dg_history.specs.declared.limits.TheConstants.{FILE_BYTES_MAX};
ghost use Rattle.dg_history.specs.declared.node.Key.TheVariants as a_key;
ghost use Rattle.dg_index.specs.OpenedIndex.{entry_at};

use dg_catalogue::{Catalogue, Key, column_length, leaves};
use dg_file::Index;
use dg_graph::Column;

// Whether a list is held and has ended before the instant.
fn has_ended(lists: &Catalogue, list: u32, t: u64) -> bool
    ensures { result ≡ end_before t (ends_of lists.now list) }
{
    match lists.list_ends(list) {
        Some(ends) => ends.last < t,
        None => false,
    }
}

// Whether a list is held, and the instant lies between its times.
fn is_between(lists: &Catalogue, list: u32, t: u64) -> bool
    ensures { result ≡ lies_between t (ends_of lists.now list) }
{
    match lists.list_ends(list) {
        Some(ends) => ends.first <= t && t <= ends.last,
        None => false,
    }
}

/// The first list from the number `from` on that has not ended before the instant, or `to` where each one below it has. No
/// list ends before an earlier one, so it is found by halves.
pub fn first_open(lists: &Catalogue, from: u32, to: u32, t: u64) -> u32
    requires rise { ListsRise lists.now }
    requires ordered { from ≤ to }
    ensures within { (from ≤ result) × (result ≤ to) }
    ensures ended { (i : ℕ) → from ≤ i → i < result → end_before t (ends_of lists.now i) ≡ true }
    ensures rest { (i : ℕ) → result ≤ i → i < to → end_before t (ends_of lists.now i) ≡ false }
{
    let mut low = from;
    let mut high = to;
    while low < high {
        let middle = low + (high - low) / 2;
        if has_ended(lists, middle, t) {
            low = middle + 1;
        } else {
            high = middle;
        }
    }
    low
}

// The first of the lists with the numbers from `from` on between whose times the instant lies, or `to`
// where none below it is one. No list begins before an earlier one has ended, so only the first that has
// not ended before the instant can be the one.
fn next_between(lists: &Catalogue, from: u32, to: u32, t: u64) -> u32
    requires rise { ListsRise lists.now }
    requires ordered { from ≤ to }
    ensures reached { (from ≤ result) × (result ≤ to) }
    ensures between { result < to → lies_between t (ends_of lists.now result) ≡ true }
    ensures before { (k : ℕ) → from ≤ k → k < result → lies_between t (ends_of lists.now k) ≡ false }
{
    let first = first_open(lists, from, to, t);
    if is_between(lists, first, t) {
        first
    } else {
        to
    }
}

/// How many lists the index keeps.
pub fn list_total(index: &Index) -> u32
    ensures { result ≡ list_total index.now.opening }
{
    // Its clauses tell that the parameters are those of an index.
    index.facts();
    leaves(index.params(), index.events_len())
}

/// The first list from this number on between whose times one of the instants lies. The instants may stand in any order,
/// and may be repeated. One search by halves among the lists for each of them.
pub fn next_heard(index: &Index, from: u32, times: &[u64]) -> Option<u32>
    ensures some { IfSome result (λ i. (from ≤ i) × (i < list_total index.now.opening) × (is_heard index.now.opening times.now i ≡ true)
        × ((k : ℕ) → from ≤ k → k < i → is_heard index.now.opening times.now k ≡ false)) }
    ensures none { IfNone result ((k : ℕ) → from ≤ k → k < list_total index.now.opening → is_heard index.now.opening times.now k ≡ false) }
{
    let total = list_total(index);
    if total <= from {
        return None;
    }
    let lists = index.catalogue();
    let mut next = total;
    for t in times {
        next = next_between(lists, from, next, *t);
    }
    if next < total { Some(next) } else { None }
}

// The bytes of the column of messages of a list.
fn message_bytes(index: &Index, list: u32) -> u64
    ensures { result ≡ column_length_in (entry_at index.now.opening (a_key.List list)) column.Transient }
{
    match index.entry(Key::List(list)) {
        Some(entry) => column_length(&entry, Column::Transient),
        None => 0,
    }
}

/// The bytes of the columns of messages of the lists between whose times one of the instants lies, each column once. The
/// instants may stand in any order, and may be repeated. One search as `next_heard` for each of these lists.
pub fn heard_bytes(index: &Index, times: &[u64]) -> u64
    ensures bytes { result ≡ heard_bytes index.now.opening times.now }
    ensures within { result ≤ FILE_BYTES_MAX }
{
    // Its clauses tell that the columns of all records are together in the file.
    index.facts();
    let mut bytes = 0;
    let mut from = 0;
    while let Some(list) = next_heard(index, from, times) {
        bytes += message_bytes(index, list);
        from = list + 1;
    }
    bytes
}
