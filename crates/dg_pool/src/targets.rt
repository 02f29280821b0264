//! The slots whose graphs change together, and which of them gain or lose an element: words of arithmetic for all.
ghost use Rattle.std.specs.Prelude.{◌≡◌, ℕ, ◌+◌, ◌<◌, ◌≤◌, ◌==◌, true, false, Some, IsSome};
ghost use Rattle.std.specs.Int.{bit_at};
ghost use Rattle.dg_graph.specs.declared.element.Columns.{Columns};
ghost use Rattle.dg_cells.specs.Rows.{Row, cell_at, Holds};
ghost use Rattle.dg_pool.specs.declared.slots.Base.TheVariants as bases;
ghost use Rattle.dg_pool.specs.declared.slots.Slot.{Slot};
ghost use Rattle.dg_pool.specs.declared.slots.SlotState.TheVariants as states;
ghost use Rattle.dg_pool.specs.Graphs.{is_listed, is_on_now, slot_at};
ghost use Rattle.dg_pool.specs.Masks.{is_asking};
ghost use Rattle.dg_pool.specs.Changes.{numbers_of, AreChangeable, AreTargets, AreMarks, AreWithin, IsMarked, IsMarkedWord, IsPairWord, IsMovedWord, moves, base_has, is_on_slot};

use crate::masks::{is_asking, put_bit};
use crate::members::in_base;
use crate::slots::{Base, Slot, SlotState, is_on_now};
use dg_cells::Cells;
use dg_event::column_of;
use dg_graph::{Column, Element};

/// The slots whose graphs change, and masks that tell of them all at once.
#[derive(Drop)]
pub(crate) struct Targets<'a> {
    pub(crate) states: &'a [SlotState; 128],
    pub(crate) slots: &'a [Slot],
    // the explicit bits of the slots
    pub(crate) explicit: [u64; 4],
    // both bits of the slots
    pub(crate) both: [u64; 4],
    // the explicit bits of those that ask for a column
    structure: [u64; 4],
    node_attr: [u64; 4],
    edge_attr: [u64; 4],
    transient: [u64; 4],
    // the explicit bits of those that rest on the current graph
    on_now: [u64; 4],
    // whether one rests on another slot
    on_slot: bool,
    // the bits of the slots are in the words from this one on
    pub(crate) first_word: u8,
    // and in none from this one on
    pub(crate) end_word: u8,
}

impl Targets<'_> {
    /// Whether all the bits of the slots are in one word.
    #[inline(always)]
    pub(crate) fn is_one_word(&self) -> bool
        ensures { result ≡ (self.now.first_word + 1 == self.now.end_word) }
    {
        self.first_word as usize + 1 == self.end_word as usize
    }
}

// The explicit bits of the slots that ask for the column.
fn asking_of(states: &[SlotState; 128], slots: &[Slot], column: Column) -> [u64; 4]
    requires { AreChangeable states.now (numbers_of slots.now) }
    ensures { IsMarked (is_asking column) states.now (numbers_of slots.now) result }
{
    let mut mask = [0; 4];
    for slot in slots {
        if is_asking(states[slot.0 as usize], column) {
            put_bit(&mut mask, 2 * slot.0);
        }
    }
    mask
}

// The explicit bits of the slots that rest on the current graph.
fn on_now_of(states: &[SlotState; 128], slots: &[Slot]) -> [u64; 4]
    requires { AreChangeable states.now (numbers_of slots.now) }
    ensures { IsMarked is_on_now states.now (numbers_of slots.now) result }
{
    let mut mask = [0; 4];
    for slot in slots {
        if is_on_now(states[slot.0 as usize]) {
            put_bit(&mut mask, 2 * slot.0);
        }
    }
    mask
}

fn is_on_slot(state: SlotState) -> bool
    ensures { result ≡ is_on_slot state }
{
    match state {
        SlotState::Live {
            base: Base::Slot(_),
            ..
        } => true,
        _ => false,
    }
}

// Whether one of the slots rests on another slot.
fn any_on_slot(states: &[SlotState; 128], slots: &[Slot]) -> bool
    requires { AreChangeable states.now (numbers_of slots.now) }
    ensures { result ≡ false → (s : ℕ) → is_listed (numbers_of slots.now) s ≡ true → is_on_slot (slot_at states.now s) ≡ false }
{
    for slot in slots {
        if is_on_slot(states[slot.0 as usize]) {
            return true;
        }
    }
    false
}

// The explicit bits of the slots, and both their bits.
fn marks_of(states: &[SlotState; 128], slots: &[Slot]) -> ([u64; 4], [u64; 4])
    requires { AreChangeable states.now (numbers_of slots.now) }
    ensures { AreMarks (numbers_of slots.now) result.0 result.1 }
{
    let _count = states.len();
    let mut explicit = [0; 4];
    let mut both = [0; 4];
    for slot in slots {
        put_bit(&mut explicit, 2 * slot.0);
        put_bit(&mut both, 2 * slot.0);
        put_bit(&mut both, 2 * slot.0 + 1);
    }
    (explicit, both)
}

// The first of the words that have bits of the slots, and one past the last.
fn words_of(states: &[SlotState; 128], slots: &[Slot]) -> (u8, u8)
    requires { AreChangeable states.now (numbers_of slots.now) }
    ensures { AreWithin (numbers_of slots.now) result.0 result.1 }
{
    let _count = states.len();
    let mut first = 4;
    let mut end = 0;
    for slot in slots {
        let word = slot.0 / 32;
        first = word.min(first);
        end = (word + 1).max(end);
    }
    (first, end)
}

/// The slots, with their masks.
pub(crate) fn targets_of<'a>(states: &'a [SlotState; 128], slots: &'a [Slot]) -> Targets<'a>
    requires { AreChangeable states.now (numbers_of slots.now) }
    ensures states { result.states.now ≡ states.now }
    ensures slots { result.slots.now ≡ slots.now }
    ensures targets { AreTargets result }
{
    let (explicit, both) = marks_of(states, slots);
    let (first_word, end_word) = words_of(states, slots);
    Targets {
        states,
        slots,
        explicit,
        both,
        structure: asking_of(states, slots, Column::Structure),
        node_attr: asking_of(states, slots, Column::NodeAttr),
        edge_attr: asking_of(states, slots, Column::EdgeAttr),
        transient: asking_of(states, slots, Column::Transient),
        on_now: on_now_of(states, slots),
        on_slot: any_on_slot(states, slots),
        first_word,
        end_word,
    }
}

/// One word of the bits that a write sets: the explicit bits of the slots, and their own bits where these are to be on.
#[inline(always)]
pub(crate) fn pair_word(targets: &Targets, word: u8, own: bool) -> u64
    requires targets { AreTargets targets.now }
    requires word { word < 4 }
    ensures { IsPairWord (numbers_of targets.now.slots.now) own word result }
{
    if own {
        targets.both[word as usize]
    } else {
        targets.explicit[word as usize]
    }
}

// One word of the explicit bits of the slots that ask for the column.
#[inline(always)]
fn asking_word(targets: &Targets, word: u8, column: Column) -> u64
    requires targets { AreTargets targets.now }
    requires word { word < 4 }
    ensures { IsMarkedWord (is_asking column) targets.now.states.now (numbers_of targets.now.slots.now) word result }
{
    match column {
        Column::Structure => targets.structure[word as usize],
        Column::NodeAttr => targets.node_attr[word as usize],
        Column::EdgeAttr => targets.edge_attr[word as usize],
        Column::Transient => targets.transient[word as usize],
    }
}

// Whether the base of the slot has the element of the cell.
fn base_has(cells: &Cells, n: usize, state: SlotState) -> bool
    requires there { IsSome (cell_at cells.now n) }
    requires base { (b : Slot) (cols : Columns) → state ≡ states.Live (bases.Slot b) cols → b.0 ≤ 127 }
    ensures { (r : Row) → cell_at cells.now n ≡ Some r → result ≡ base_has r state }
{
    match state {
        SlotState::Live { base, .. } => in_base(cells, n, base),
        _ => false,
    }
}

// The explicit bits of the slots whose base has the cell's element, one slot after another.
fn bases_each(cells: &Cells, n: usize, states: &[SlotState; 128], slots: &[Slot]) -> [u64; 4]
    requires there { IsSome (cell_at cells.now n) }
    requires can { AreChangeable states.now (numbers_of slots.now) }
    ensures { (r : Row) → cell_at cells.now n ≡ Some r → IsMarked (base_has r) states.now (numbers_of slots.now) result }
{
    let mut mask = [0; 4];
    for slot in slots {
        if base_has(cells, n, states[slot.0 as usize]) {
            put_bit(&mut mask, 2 * slot.0);
        }
    }
    mask
}

// One word of the explicit bits of the slots whose base has the cell's element. The cell is read only where one of the
// slots in the word rests on the current graph, or one of all on another slot.
#[inline(always)]
fn base_word(targets: &Targets, cells: &Cells, n: usize, word: u8) -> u64
    requires targets { AreTargets targets.now }
    requires there { IsSome (cell_at cells.now n) }
    requires word { word < 4 }
    ensures { (r : Row) → cell_at cells.now n ≡ Some r → IsMarkedWord (base_has r) targets.now.states.now (numbers_of targets.now.slots.now) word result }
{
    if targets.on_slot {
        return bases_each(cells, n, targets.states, targets.slots)[word as usize];
    }
    let on_now = targets.on_now[word as usize];
    if on_now == 0 {
        return 0;
    }
    if cells.is_current_at(n) { on_now } else { 0 }
}

// Of one word: the slots that ask, and had the element and lose it, or had it not and get it. Their explicit bits stand at even places.
#[inline(always)]
fn moved_word(bits: u64, base: u64, asking: u64, own: bool) -> u64
    ensures { (i : ℕ) → i < 64 → (bit_at result i == 1) ≡ moves own (bit_at bits i == 1) (bit_at bits (i + 1) == 1) (bit_at base i == 1) (bit_at asking i == 1) }
{
    let had = (bits & (bits >> 1)) | (!bits & base);
    if own { asking & !had } else { asking & had }
}

/// One word of the explicit bits of the slots whose graphs gain or lose the cell's element once their own bits are written
/// there.
#[inline(always)]
pub(crate) fn moved_in(
    targets: &Targets,
    cells: &Cells,
    n: usize,
    element: &Element,
    word: u8,
    own: bool,
) -> u64
    requires targets { AreTargets targets.now }
    requires holds { Holds cells.now element.now n }
    requires word { word < 4 }
    ensures { (r : Row) → cell_at cells.now n ≡ Some r → IsMovedWord targets.now.states.now (numbers_of targets.now.slots.now) own r word result }
{
    let base = base_word(targets, cells, n, word);
    let asking = asking_word(targets, word, column_of(element));
    moved_word(cells.word(n, word), base, asking, own)
}
