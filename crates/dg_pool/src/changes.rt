//! How a delta is written for several slots at once: each cell is found once, and written once for all of them.
ghost use Rattle.std.specs.Prelude.{◌≡◌, ℕ, ◌/◌, ◌<◌, true, false, [], ◌∷◌, Some, IsSome, length};
ghost use Rattle.dg_cells.specs.Rows.{Row, cell_at, Holds, AreNumbers, CellsAreApart, Writes};
ghost use Rattle.dg_pool.specs.Counts.{counts_at};
ghost use Rattle.dg_pool.specs.Masks.{explicit_in, own_in};
ghost use Rattle.dg_pool.specs.Changes.{numbers_of, AreChangeable, AreTargets, AreGraphCounts, CanRecountAll, RecountsAll, CanCount, CountsMoved, WritesDelta, one_sided, SetsPairs};

use crate::counts::change_count;
use crate::masks::split_lowest;
use crate::slots::{Slot, SlotState};
use crate::targets::{Targets, moved_in, pair_word, targets_of};
use dg_cells::{Cells, Cursor};
use dg_delta::Delta;
use dg_graph::Element;
use dg_query::Counts;

// Counts one more or one less for each slot of which the word has the explicit bit.
#[inline(always)]
fn count_moved(counts: &mut [Counts; 128], moved: u64, word: u8, element: &Element, own: bool)
    requires word { word < 4 }
    requires even { (s : ℕ) → own_in moved s ≡ false }
    requires fit { (s : ℕ) → s / 32 ≡ word → explicit_in moved s ≡ true → CanCount own element.now (counts_at counts.old s) }
    ensures len { length counts.new ≡ 128 }
    ensures counts { CountsMoved own element.now word moved counts.old counts.new }
{
    let mut left = moved;
    while left != 0 {
        let (bit, rest) = split_lowest(left);
        let slot = 32 * word as usize + bit as usize / 2;
        change_count(&mut counts[slot], element, own);
        left = rest;
    }
}

// Keeps the counts of the slots, one word of their bits after another.
#[inline(never)]
fn recount_words(
    cells: &Cells,
    counts: &mut [Counts; 128],
    targets: &Targets,
    n: usize,
    element: &Element,
    own: bool,
)
    requires holds { Holds cells.now element.now n }
    requires targets { AreTargets targets.now }
    requires fit { (r : Row) → cell_at cells.now n ≡ Some r → CanRecountAll targets.now.states.now (numbers_of targets.now.slots.now) own r counts.old }
    ensures len { length counts.new ≡ 128 }
    ensures counts { (r : Row) → cell_at cells.now n ≡ Some r → RecountsAll targets.now.states.now (numbers_of targets.now.slots.now) own r counts.old counts.new }
{
    for word in targets.first_word..targets.end_word {
        let moved = moved_in(targets, cells, n, element, word, own);
        count_moved(counts, moved, word, element, own);
    }
}

// Keeps the counts of the slots whose graphs gain or lose the element by a write of their own bits in its cell. Of the cell
// the words are read that have bits of the slots, and those that tell of their bases.
#[inline(always)]
fn recount(
    cells: &Cells,
    counts: &mut [Counts; 128],
    targets: &Targets,
    n: usize,
    element: &Element,
    own: bool,
)
    requires holds { Holds cells.now element.now n }
    requires targets { AreTargets targets.now }
    requires fit { (r : Row) → cell_at cells.now n ≡ Some r → CanRecountAll targets.now.states.now (numbers_of targets.now.slots.now) own r counts.old }
    ensures len { length counts.new ≡ 128 }
    ensures counts { (r : Row) → cell_at cells.now n ≡ Some r → RecountsAll targets.now.states.now (numbers_of targets.now.slots.now) own r counts.old counts.new }
{
    if targets.is_one_word() {
        let word = targets.first_word;
        let moved = moved_in(targets, cells, n, element, word, own);
        count_moved(counts, moved, word, element, own);
        return;
    }
    recount_words(cells, counts, targets, n, element, own);
}

// Sets the bits of the slots, one word after another.
#[inline(never)]
fn set_words(cells: &mut Cells, targets: &Targets, n: usize, own: bool)
    requires there { IsSome (cell_at cells.old n) }
    requires targets { AreTargets targets.now }
    ensures { Writes cells.old cells.new n (SetsPairs (numbers_of targets.now.slots.now) (true, own)) }
{
    for word in targets.first_word..targets.end_word {
        let on = pair_word(targets, word, own);
        let off = pair_word(targets, word, true);
        cells.write_word(n, word, on, off);
    }
}

// Sets the explicit bits of the slots in an occupied cell, and their own bits or puts them off: one write for each word that
// has some of them.
#[inline(always)]
fn set_pairs(cells: &mut Cells, targets: &Targets, n: usize, own: bool)
    requires there { IsSome (cell_at cells.old n) }
    requires targets { AreTargets targets.now }
    ensures { Writes cells.old cells.new n (SetsPairs (numbers_of targets.now.slots.now) (true, own)) }
{
    if targets.is_one_word() {
        let word = targets.first_word;
        let on = pair_word(targets, word, own);
        let off = pair_word(targets, word, true);
        cells.write_word(n, word, on, off);
        return;
    }
    set_words(cells, targets, n, own);
}

// Puts the element, which has this cell, into the graphs of the slots, or takes it out.
#[inline(always)]
fn write_cell(
    cells: &mut Cells,
    counts: &mut [Counts; 128],
    targets: &Targets,
    n: usize,
    element: &Element,
    own: bool,
)
    requires holds { Holds cells.old element.now n }
    requires targets { AreTargets targets.now }
    requires counted { AreGraphCounts targets.now.states.now cells.old counts.old }
    ensures writes { WritesDelta targets.now.states.now (numbers_of targets.now.slots.now) (one_sided own (element.now ∷ [])) cells.old cells.new }
    ensures counted { AreGraphCounts targets.now.states.now cells.new counts.new }
{
    cells.facts();
    // no graph has more elements than there are cells, so the counts fit
    let _most = cells.len();
    recount(cells, counts, targets, n, element, own);
    set_pairs(cells, targets, n, own);
}

// Takes the element out of the graphs of the slots. Answers from where to look for a later element.
#[inline(always)]
fn take_out(
    cells: &mut Cells,
    counts: &mut [Counts; 128],
    targets: &Targets,
    near: Cursor,
    element: &Element,
) -> Cursor
    requires targets { AreTargets targets.now }
    requires counted { AreGraphCounts targets.now.states.now cells.old counts.old }
    ensures writes { WritesDelta targets.now.states.now (numbers_of targets.now.slots.now) (one_sided false (element.now ∷ [])) cells.old cells.new }
    ensures counted { AreGraphCounts targets.now.states.now cells.new counts.new }
{
    cells.facts();
    let (found, cursor) = cells.find_near(near, element);
    if let Some(n) = found {
        write_cell(cells, counts, targets, n, element, false);
    }
    cursor
}

// Takes the elements out of the graphs of the slots, and is quickest where they rise.
fn take_out_all(cells: &mut Cells, counts: &mut [Counts; 128], targets: &Targets, items: &[Element])
    requires targets { AreTargets targets.now }
    requires counted { AreGraphCounts targets.now.states.now cells.old counts.old }
    ensures writes { WritesDelta targets.now.states.now (numbers_of targets.now.slots.now) (one_sided false items.now) cells.old cells.new }
    ensures counted { AreGraphCounts targets.now.states.now cells.new counts.new }
{
    cells.facts();
    let mut near = cells.first();
    for element in items {
        near = take_out(cells, counts, targets, near, element);
    }
}

// Puts the elements, whose cells have these numbers, into the graphs of the slots.
fn put_in_all(
    cells: &mut Cells,
    counts: &mut [Counts; 128],
    targets: &Targets,
    items: &[Element],
    numbers: &[u32],
)
    requires targets { AreTargets targets.now }
    requires counted { AreGraphCounts targets.now.states.now cells.old counts.old }
    requires numbers { AreNumbers cells.old items.now numbers.now }
    ensures writes { WritesDelta targets.now.states.now (numbers_of targets.now.slots.now) (one_sided true items.now) cells.old cells.new }
    ensures counted { AreGraphCounts targets.now.states.now cells.new counts.new }
{
    cells.facts();
    for index in 0..items.len() {
        let n = numbers[index] as usize;
        write_cell(cells, counts, targets, n, &items[index], true);
    }
}

/// Applies the delta to the graphs of the slots and keeps their counts. The cells of the elements that it puts in have
/// these numbers.
pub(crate) fn write_delta(
    cells: &mut Cells,
    counts: &mut [Counts; 128],
    states: &[SlotState; 128],
    slots: &[Slot],
    delta: &Delta,
    numbers: &[u32],
)
    requires can { AreChangeable states.now (numbers_of slots.now) }
    requires counted { AreGraphCounts states.now cells.old counts.old }
    requires numbers { AreNumbers cells.old delta.now.plus numbers.now }
    ensures writes { WritesDelta states.now (numbers_of slots.now) delta.now cells.old cells.new }
    ensures counted { AreGraphCounts states.now cells.new counts.new }
    ensures apart { CellsAreApart cells.new }
{
    let targets = targets_of(states, slots);
    take_out_all(cells, counts, &targets, delta.minus().items());
    put_in_all(cells, counts, &targets, delta.plus().items(), numbers);
    cells.facts();
}
