//! A walk over the occupied cells in the order of their elements.
ghost use Rattle.std.specs.Prelude.{◌≡◌, ℕ, ◌+◌, ◌<◌, ◌≤◌, true, Option, Some, None, length, min, is_some, IfSome, IfNone, IsSome, slice_get, slice_index_or};
ghost use Rattle.dg_cells.specs.Rows.{cell_at, Holds, Lacks};
ghost use Rattle.dg_cells.specs.Pieces.{strung, nth_piece, numbers_before, IsPosition};
ghost use Rattle.dg_cells.specs.Order.{IsListed, IsLower};
ghost use Rattle.dg_cells.specs.Cursors.{ordered, ordered_elements, cursor_index};

use crate::listing::find;
use crate::pieces::Pieces;
use crate::positions::{Position, START, element, seek};
use dg_arena::Rows;
use dg_graph::Element;

/// A position in the order of the occupied cells: at one of them, or past the last.
#[derive(Clone, Copy)]
pub struct Cursor {
    /// The number of the cell; none past the last one.
    pub cell: Option<usize>,
    // Where the number was in the order.
    position: Position,
}

// The cursor at a position.
fn cursor_at(rows: &Rows<Element>, order: &Pieces, position: Position) -> Cursor
    requires listed { IsListed rows.now.items (strung order.now) }
    requires position { IsPosition order.now position.piece position.index }
    ensures { cursor_index rows.now.items result ≡ numbers_before order.now position.piece + position.index }
{
    let _ = rows;
    match order.number(position.piece, position.index) {
        Some(n) => Cursor {
            cell: Some(n as usize),
            position,
        },
        None => Cursor {
            cell: None,
            position,
        },
    }
}

// Whether the number is at the position.
fn is_number_at(order: &Pieces, position: Position, n: usize) -> bool
    ensures piece { result ≡ true → position.piece < length order.now }
    ensures index { result ≡ true → position.index < length (nth_piece order.now position.piece) }
    ensures number { result ≡ true → slice_index_or (strung order.now) (numbers_before order.now position.piece + position.index) 0 ≡ n }
{
    if position.piece >= order.len() {
        return false;
    }
    let piece = order.piece(position.piece);
    position.index < piece.len() && piece[position.index] as usize == n
}

// The number behind this one in its piece, where this one is at the position.
fn next_number(order: &Pieces, position: Position, n: usize) -> Option<u32>
    ensures piece { IfSome result (λ _. position.piece < length order.now) }
    ensures index { IfSome result (λ _. position.index + 1 < length (nth_piece order.now position.piece)) }
    ensures most { IfSome result (λ _. position.index < 1024) }
    ensures number { IfSome result (λ _. slice_index_or (nth_piece order.now position.piece) position.index 0 ≡ n) }
    ensures next { IfSome result (λ m. slice_index_or (nth_piece order.now position.piece) (position.index + 1) 0 ≡ m) }
{
    if position.piece >= order.len() {
        return None;
    }
    let piece = order.piece(position.piece);
    if position.index < piece.len()
        && piece[position.index] as usize == n
        && position.index + 1 < piece.len()
    {
        Some(piece[position.index + 1])
    } else {
        None
    }
}

// The position of an occupied cell, which is looked for where it was.
fn locate(rows: &Rows<Element>, order: &Pieces, n: usize, was: Position) -> Position
    requires listed { IsListed rows.now.items (strung order.now) }
    requires there { IsSome (cell_at rows.now.items n) }
    ensures piece { result.piece < length order.now }
    ensures index { result.index < length (nth_piece order.now result.piece) }
    ensures number { slice_index_or (strung order.now) (numbers_before order.now result.piece + result.index) 0 ≡ n }
{
    if is_number_at(order, was, n) {
        was
    } else {
        seek(rows, order, was, &element(rows, n))
    }
}

// The position behind a number.
fn next(order: &Pieces, position: Position) -> Position
    requires piece { position.piece < length order.now }
    requires index { position.index < length (nth_piece order.now position.piece) }
    ensures position { IsPosition order.now result.piece result.index }
    ensures next { numbers_before order.now result.piece + result.index ≡ numbers_before order.now position.piece + position.index + 1 }
{
    order.facts();
    let _pieces = order.len();
    if position.index + 1 < order.piece(position.piece).len() {
        Position {
            piece: position.piece,
            index: position.index + 1,
        }
    } else {
        Position {
            piece: position.piece + 1,
            index: 0,
        }
    }
}

// The cursor behind one that stands at an occupied cell.
fn behind(rows: &Rows<Element>, order: &Pieces, n: usize, cursor: Cursor) -> Cursor
    requires listed { IsListed rows.now.items (strung order.now) }
    requires there { IsSome (cell_at rows.now.items n) }
    requires number { cursor.cell ≡ Some n }
    ensures { cursor_index rows.now.items result ≡ min (cursor_index rows.now.items cursor + 1) (length (ordered rows.now.items)) }
{
    match next_number(order, cursor.position, n) {
        Some(m) => Cursor {
            cell: Some(m as usize),
            position: Position {
                piece: cursor.position.piece,
                index: cursor.position.index + 1,
            },
        },
        None => cursor_at(
            rows,
            order,
            next(order, locate(rows, order, n, cursor.position)),
        ),
    }
}

fn is_occupied(rows: &Rows<Element>, n: usize) -> bool
    ensures { result ≡ is_some (cell_at rows.now.items n) }
{
    rows.get(n).is_some()
}

/// The cursor at the first occupied cell.
pub(crate) fn first(rows: &Rows<Element>, order: &Pieces) -> Cursor
    requires { IsListed rows.now.items (strung order.now) }
    ensures { cursor_index rows.now.items result ≡ 0 }
{
    order.facts();
    cursor_at(rows, order, START)
}

/// The cursor at the first cell whose element is not before this one.
pub(crate) fn seek_from(rows: &Rows<Element>, order: &Pieces, near: Cursor, x: &Element) -> Cursor
    requires { IsListed rows.now.items (strung order.now) }
    ensures { IsLower x.now (ordered_elements rows.now.items) (cursor_index rows.now.items result) }
{
    cursor_at(rows, order, seek(rows, order, near.position, x))
}

// The cursor from which to look for an element behind the one at the position.
fn near(position: Position) -> Cursor {
    Cursor {
        cell: None,
        position,
    }
}

/// The number of the element's cell, and the cursor from which to look for a later element. The cell behind the one that
/// was found last is looked at first.
pub(crate) fn find_from(
    rows: &Rows<Element>,
    order: &Pieces,
    from: Cursor,
    x: &Element,
) -> (Option<u32>, Cursor)
    requires { IsListed rows.now.items (strung order.now) }
    ensures found { IfSome result.0 (Holds rows.now.items x.now) }
    ensures lacks { IfNone result.0 (Lacks rows.now.items x.now) }
{
    let (number, position) = find(rows, order, from.position, x);
    (number, near(position))
}

/// The number of the cell at which the cursor stands.
pub(crate) fn at(rows: &Rows<Element>, order: &Pieces, cursor: Cursor) -> Option<usize>
    requires { IsListed rows.now.items (strung order.now) }
    ensures found { IfSome result (λ n. slice_get (ordered rows.now.items) (cursor_index rows.now.items cursor) ≡ cell_at rows.now.items n) }
    ensures there { IfSome result (λ n. IsSome (cell_at rows.now.items n)) }
    ensures number { IfSome result (λ n. cursor.cell ≡ Some n) }
    ensures end { IfNone result (cursor_index rows.now.items cursor ≡ length (ordered rows.now.items)) }
{
    let _ = order;
    match cursor.cell {
        Some(n) => { if is_occupied(rows, n) { Some(n) } else { None } }
        None => None,
    }
}

/// The cursor at the next occupied cell.
pub(crate) fn after(rows: &Rows<Element>, order: &Pieces, cursor: Cursor) -> Cursor
    requires { IsListed rows.now.items (strung order.now) }
    ensures { cursor_index rows.now.items result ≡ min (cursor_index rows.now.items cursor + 1) (length (ordered rows.now.items)) }
{
    match at(rows, order, cursor) {
        Some(n) => behind(rows, order, n, cursor),
        None => Cursor {
            cell: None,
            position: cursor.position,
        },
    }
}

/// The number of the cell at which the cursor stands, and the cursor at the next occupied cell.
pub(crate) fn step_number(
    rows: &Rows<Element>,
    order: &Pieces,
    cursor: Cursor,
) -> Option<(usize, Cursor)>
    requires { IsListed rows.now.items (strung order.now) }
    ensures found { IfSome result (λ s. slice_get (ordered rows.now.items) (cursor_index rows.now.items cursor) ≡ cell_at rows.now.items s.0) }
    ensures there { IfSome result (λ s. IsSome (cell_at rows.now.items s.0)) }
    ensures next { IfSome result (λ s. cursor_index rows.now.items s.1 ≡ min (cursor_index rows.now.items cursor + 1) (length (ordered rows.now.items))) }
    ensures end { IfNone result (cursor_index rows.now.items cursor ≡ length (ordered rows.now.items)) }
{
    match at(rows, order, cursor) {
        Some(n) => Some((n, behind(rows, order, n, cursor))),
        None => None,
    }
}
