//! Where an element stands in the order of the cells, or belongs.
ghost use Rattle.std.specs.Prelude.{◌≡◌, ℕ, ◌+◌, ◌-◌, ◌<◌, ◌≤◌, true, false, Some, None, IsSome, IfSome, IfNone, length, slice_index_or};
ghost use Rattle.std.specs.Ordering.{is_lt, is_eq};
ghost use Rattle.dg_cells.specs.Rows.{cell_at, Holds};
ghost use Rattle.dg_cells.specs.Pieces.{strung, nth_piece, numbers_before, IsPosition};
ghost use Rattle.dg_cells.specs.Order.{cell_element, elements_in, AreCells, IsOrder, IsLower, is_cell_before, is_index_before, is_piece_before};

use crate::pieces::Pieces;
use dg_arena::Rows;
use dg_event::compare;
use dg_graph::Element;
use std::cmp::Ordering;

/// An index within a piece of the order, or the end of the order.
#[derive(Clone, Copy)]
pub(crate) struct Position {
    pub(crate) piece: usize,
    pub(crate) index: usize,
}

/// The first position, where nothing is known of the element.
pub(crate) const START: Position = Position { piece: 0, index: 0 };

/// The position to look at for an element behind the one at this position.
pub(crate) fn behind(position: Position) -> Position {
    Position {
        piece: position.piece,
        index: position.index.saturating_add(1),
    }
}

/// The element of an occupied cell.
pub(crate) fn element(rows: &Rows<Element>, n: usize) -> Element
    requires { IsSome (cell_at rows.now.items n) }
    ensures { cell_element (cell_at rows.now.items n) ≡ Some result }
{
    match rows.get(n) {
        Some(element) => *element,
        None => unreachable!(),
    }
}

// Whether the two are one element. Where a walk comes by the elements that it looks for they mostly are, and no order of their
// numbers is asked for.
#[inline(always)]
fn is_same(left: &Element, right: &Element) -> bool
    ensures same { result ≡ true → left.now ≡ right.now }
    ensures differs { result ≡ false → left.now ≡ right.now → ⊥ }
{
    match *left {
        Element::Node { id } => match *right {
            Element::Node { id: other } => id == other,
            _ => false,
        },
        Element::Edge {
            directed,
            id,
            src,
            dst,
        } => match *right {
            Element::Edge {
                directed: is_other,
                id: other,
                src: other_src,
                dst: other_dst,
            } => id == other && src == other_src && dst == other_dst && directed == is_other,
            _ => false,
        },
        Element::NodeAttr { id, key, value } => match *right {
            Element::NodeAttr {
                id: other,
                key: other_key,
                value: other_value,
            } => id == other && key == other_key && value == other_value,
            _ => false,
        },
        Element::EdgeAttr { id, key, value } => match *right {
            Element::EdgeAttr {
                id: other,
                key: other_key,
                value: other_value,
            } => id == other && key == other_key && value == other_value,
            _ => false,
        },
        Element::Message { src, dst, value } => match *right {
            Element::Message {
                src: other_src,
                dst: other_dst,
                value: other_value,
            } => src == other_src && dst == other_dst && value == other_value,
            _ => false,
        },
    }
}

// Whether the cell has the element.
#[inline(always)]
fn has_element(rows: &Rows<Element>, n: usize, x: &Element) -> bool
    ensures has { result ≡ true → Holds rows.now.items x.now n }
    ensures has_not { result ≡ false → cell_element (cell_at rows.now.items n) ≡ Some x.now → ⊥ }
{
    match rows.get(n) {
        Some(element) => is_same(x, element),
        None => false,
    }
}

/// The number at this position, if its cell has the element.
#[inline(always)]
pub(crate) fn stands_at(
    rows: &Rows<Element>,
    pieces: &Pieces,
    position: Position,
    x: &Element,
) -> Option<u32>
    ensures { IfSome result (Holds rows.now.items x.now) }
{
    if position.piece >= pieces.len() {
        return None;
    }
    let piece = pieces.piece(position.piece);
    if position.index < piece.len() && has_element(rows, piece[position.index] as usize, x) {
        Some(piece[position.index])
    } else {
        None
    }
}

// How the cell's element compares with this one.
fn compare_at(rows: &Rows<Element>, n: usize, x: &Element) -> Ordering
    requires { IsSome (cell_at rows.now.items n) }
    ensures less { is_lt result ≡ is_cell_before x.now (cell_at rows.now.items n) }
    ensures equal { is_eq result ≡ true → cell_element (cell_at rows.now.items n) ≡ Some x.now }
    ensures differs { is_eq result ≡ false → cell_element (cell_at rows.now.items n) ≡ Some x.now → ⊥ }
{
    match rows.get(n) {
        Some(element) => compare(element, x),
        None => unreachable!(),
    }
}

// Whether the cell's element is before this one.
fn is_before(rows: &Rows<Element>, n: usize, x: &Element) -> bool
    requires { IsSome (cell_at rows.now.items n) }
    ensures { result ≡ is_cell_before x.now (cell_at rows.now.items n) }
{
    compare_at(rows, n, x).is_lt()
}

// A position to look at: so many steps from the low end, or half way.
fn probe(low: usize, high: usize, step: usize) -> usize
    requires { low < high }
    ensures on { low ≤ result }
    ensures within { result < high }
{
    let half = (high - low) / 2;
    if step < half { low + step } else { low + half }
}

// The first step of a search: to the low end itself, where something is known to be before the element, and
// half way otherwise.
fn first_step(low: usize) -> usize {
    if low == 0 { usize::MAX } else { 0 }
}

// The step behind one that came to nothing.
fn next_step(step: usize) -> usize {
    step.saturating_mul(2).saturating_add(1)
}

// The position from which to look: the given one, if it is not too far on.
fn start_within(rows: &Rows<Element>, order: &[u32], near: usize, x: &Element) -> usize
    requires { AreCells rows.now.items order.now }
    ensures within { result ≤ length order.now }
    ensures low { 0 < result → is_index_before rows.now.items order.now x.now (result - 1) ≡ true }
{
    if 0 < near && near <= order.len() && is_before(rows, order[near - 1] as usize, x) {
        near
    } else {
        0
    }
}

/// Where the element stands or belongs among cells of which those up to `from` are before it, and whether
/// it stands there.
pub(crate) fn seek_on(
    rows: &Rows<Element>,
    order: &[u32],
    from: usize,
    x: &Element,
) -> (usize, bool)
    requires cells { AreCells rows.now.items order.now }
    requires within { from ≤ length order.now }
    requires low { 0 < from → is_index_before rows.now.items order.now x.now (from - 1) ≡ true }
    ensures on { from ≤ result.0 }
    ensures within { result.0 ≤ length order.now }
    ensures low { 0 < result.0 → is_index_before rows.now.items order.now x.now (result.0 - 1) ≡ true }
    ensures high { result.0 < length order.now → is_index_before rows.now.items order.now x.now result.0 ≡ false }
    ensures inside { result.1 ≡ true → result.0 < length order.now }
    ensures is { result.1 ≡ true → cell_element (cell_at rows.now.items (slice_index_or order.now result.0 0)) ≡ Some x.now }
    ensures is_not { result.1 ≡ false → result.0 < length order.now → cell_element (cell_at rows.now.items (slice_index_or order.now result.0 0)) ≡ Some x.now → ⊥ }
{
    let mut low = from;
    let mut high = order.len();
    let mut step = first_step(low);
    let mut there = false;
    while low < high {
        let at = probe(low, high, step);
        let found = compare_at(rows, order[at] as usize, x);
        if found.is_lt() {
            step = next_step(step);
            low = at + 1;
        } else {
            there = found.is_eq();
            high = at;
        }
    }
    (low, there)
}

/// Where the element stands or belongs among the cells of a piece.
pub(crate) fn seek_within(rows: &Rows<Element>, order: &[u32], near: usize, x: &Element) -> usize
    requires { AreCells rows.now.items order.now }
    ensures within { result ≤ length order.now }
    ensures low { 0 < result → is_index_before rows.now.items order.now x.now (result - 1) ≡ true }
    ensures high { result < length order.now → is_index_before rows.now.items order.now x.now result ≡ false }
{
    let from = start_within(rows, order, near, x);
    let (index, _there) = seek_on(rows, order, from, x);
    index
}

// Whether all elements of the piece are before this one.
fn is_piece_before(rows: &Rows<Element>, pieces: &Pieces, n: usize, x: &Element) -> bool
    requires cells { AreCells rows.now.items (strung pieces.now) }
    requires within { n < length pieces.now }
    ensures { result ≡ is_piece_before rows.now.items pieces.now x.now n }
{
    let piece = pieces.piece(n);
    is_before(rows, piece[piece.len() - 1] as usize, x)
}

// The piece from which to look: the given one, if it is not too far on.
fn start_piece(rows: &Rows<Element>, pieces: &Pieces, near: usize, x: &Element) -> usize
    requires { AreCells rows.now.items (strung pieces.now) }
    ensures within { result ≤ length pieces.now }
    ensures low { 0 < result → is_piece_before rows.now.items pieces.now x.now (result - 1) ≡ true }
{
    if 0 < near && near <= pieces.len() && is_piece_before(rows, pieces, near - 1, x) {
        near
    } else {
        0
    }
}

// The piece where the element stands or belongs; the end where all are before it.
fn seek_piece(rows: &Rows<Element>, pieces: &Pieces, near: usize, x: &Element) -> usize
    requires { AreCells rows.now.items (strung pieces.now) }
    ensures within { result ≤ length pieces.now }
    ensures low { 0 < result → is_piece_before rows.now.items pieces.now x.now (result - 1) ≡ true }
    ensures high { result < length pieces.now → is_piece_before rows.now.items pieces.now x.now result ≡ false }
{
    let mut low = start_piece(rows, pieces, near, x);
    let mut high = pieces.len();
    let mut step = first_step(low);
    while low < high {
        let at = probe(low, high, step);
        if is_piece_before(rows, pieces, at, x) {
            step = next_step(step);
            low = at + 1;
        } else {
            high = at;
        }
    }
    low
}

// The index in the piece of `near` where the element stands or belongs, if it is behind the first number
// of the piece and not behind the last.
fn seek_beside(rows: &Rows<Element>, pieces: &Pieces, near: Position, x: &Element) -> Option<usize>
    requires { AreCells rows.now.items (strung pieces.now) }
    ensures piece { IsSome result → near.piece < length pieces.now }
    ensures within { IfSome result (λ i. (0 < i) × (i < length (nth_piece pieces.now near.piece))) }
    ensures low { IfSome result (λ i. is_index_before rows.now.items (nth_piece pieces.now near.piece) x.now (i - 1) ≡ true) }
    ensures high { IfSome result (λ i. is_index_before rows.now.items (nth_piece pieces.now near.piece) x.now i ≡ false) }
{
    if near.index == 0 || near.piece >= pieces.len() {
        return None;
    }
    if is_piece_before(rows, pieces, near.piece, x) {
        return None;
    }
    let piece = pieces.piece(near.piece);
    let index = seek_within(rows, piece, near.index, x);
    if 0 < index && index < piece.len() {
        Some(index)
    } else {
        None
    }
}

// The index to look from in a piece.
fn index_in(near: Position, piece: usize) -> usize {
    if near.piece == piece { near.index } else { 0 }
}

/// Where the element stands in the order of the cells, or belongs. It takes the fewer steps the less
/// it is behind `near`.
pub(crate) fn seek(rows: &Rows<Element>, pieces: &Pieces, near: Position, x: &Element) -> Position
    requires { IsOrder rows.now.items (strung pieces.now) }
    ensures position { IsPosition pieces.now result.piece result.index }
    ensures lower { IsLower x.now (elements_in rows.now.items (strung pieces.now)) (numbers_before pieces.now result.piece + result.index) }
{
    pieces.facts();
    if let Some(index) = seek_beside(rows, pieces, near, x) {
        return Position {
            piece: near.piece,
            index,
        };
    }
    let piece = seek_piece(rows, pieces, near.piece, x);
    if piece == pieces.len() {
        return Position { piece, index: 0 };
    }
    let index = seek_within(rows, pieces.piece(piece), index_in(near, piece), x);
    Position { piece, index }
}
