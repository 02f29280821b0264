//! Reading a delta's column.

ghost use Rattle.std.specs.Prelude.{◌≡◌, ◌+◌, ◌≤◌, ◌==◌, ◌&&◌, not, length, Ok, IfOk, IfErr, IfSome, IsSome, IsTrue, OnOk};
ghost use Rattle.dg_graph.specs.Composition.{Delta};
ghost use Rattle.dg_graph.specs.Elements.{IsSet, element_cmp};
ghost use Rattle.dg_graph.specs.ColumnGrammar.{four_bytes, element_at, element_size, rises_from, elements_at, may_change, changes_in, delta_in};
ghost use Rattle.dg_set.specs.Apart.{AreApart};
ghost use Rattle.dg_columns.specs.ReadOutcome.{IsReadAs, IsFaultOf};
ghost use Rattle.dg_columns.specs.Added.{IsKept, added};
ghost use Rattle.dg_columns.specs.Fields.{attr_at, next_element_at};
ghost use Rattle.dg_columns.specs.ReadFits.{DeltaFits, IsPushed};
ghost use Rattle.dg_delta.specs.Deltas.{joined};

use crate::delta_writer::element_size;
use crate::edge::edge_at;
use crate::fault::ReadFault;
use crate::layout::{COUNT_SIZE, EDGE, NODE, SMALLEST_ELEMENT};
use crate::numbers::{byte_at, name_at, u32_at, u64_at};
use crate::sound_elements::{end_here, push_elements, set_here};
use dg_delta::{Delta, Element, Set};
use dg_graph::Column;
use dg_set::are_apart;
use std::alloc::Global;
use std::cmp::Ordering;

/// A value without its kind.
#[derive(Clone, Copy)]
pub(crate) struct AttrFields {
    pub(crate) id: u64,
    pub(crate) key: u32,
    pub(crate) value: u32,
}

// The fields of a value.
fn attr_at(bytes: &[u8], offset: usize, name_count: u32) -> Result<AttrFields, ReadFault>
    requires { offset ≤ length bytes.now }
    ensures fields { IsReadAs (λ attr. attr) result (attr_at name_count bytes.now offset) }
    ensures fits { OnOk result (offset + 16 ≤ length bytes.now) }
{
    let id = u64_at(bytes, offset)?;
    let key = name_at(bytes, offset + 8, name_count)?;
    let value = name_at(bytes, offset + 12, name_count)?;
    Ok(AttrFields { id, key, value })
}

// A node or an edge.
fn structure_at(bytes: &[u8], offset: usize, name_count: u32) -> Result<Element, ReadFault>
    requires { offset ≤ length bytes.now }
    ensures element { IsReadAs (λ x. x) result (element_at Column.Structure name_count bytes.now offset) }
    ensures fits { IfOk result (λ x. offset + element_size x ≤ length bytes.now) }
{
    let kind = byte_at(bytes, offset, NODE, EDGE)?;
    if kind == NODE {
        let id = u64_at(bytes, offset + 1)?;
        Ok(Element::Node { id })
    } else {
        let edge = edge_at(bytes, offset + 1)?;
        Ok(Element::Edge {
            id: edge.id,
            src: edge.src,
            dst: edge.dst,
            directed: edge.directed,
        })
    }
}

// The element of the column at the offset.
fn element_at(
    bytes: &[u8],
    offset: usize,
    col: Column,
    name_count: u32,
) -> Result<Element, ReadFault>
    requires { offset ≤ length bytes.now }
    ensures element { IsReadAs (λ x. x) result (element_at col name_count bytes.now offset) }
    ensures fits { IfOk result (λ x. offset + element_size x ≤ length bytes.now) }
{
    match col {
        Column::Structure => structure_at(bytes, offset, name_count),
        Column::NodeAttr => {
            let attr = attr_at(bytes, offset, name_count)?;
            Ok(Element::NodeAttr {
                id: attr.id,
                key: attr.key,
                value: attr.value,
            })
        }
        Column::EdgeAttr => {
            let attr = attr_at(bytes, offset, name_count)?;
            Ok(Element::EdgeAttr {
                id: attr.id,
                key: attr.key,
                value: attr.value,
            })
        }
        Column::Transient => Err(ReadFault::Damaged(offset as u64)),
    }
}

fn compare(left: &Element, right: &Element) -> Ordering
    ensures { result ≡ element_cmp left.now right.now }
{
    left.cmp(right)
}

// Whether the element comes after the one before it, if there is one.
fn rises_from(last: Option<Element>, element: &Element) -> bool
    ensures { result ≡ rises_from last element.now }
{
    match last {
        None => true,
        Some(last) => compare(&last, element).is_lt(),
    }
}

// The element at the offset, which comes after the last one and is not among the others.
fn next_element_at(
    bytes: &[u8],
    offset: usize,
    col: Column,
    name_count: u32,
    last: Option<Element>,
    others: &Set,
) -> Result<Element, ReadFault>
    requires { offset ≤ length bytes.now }
    ensures element { IsReadAs (λ x. x) result (next_element_at col name_count bytes.now others.now offset last) }
    ensures fits { IfOk result (λ x. offset + element_size x ≤ length bytes.now) }
{
    let element = element_at(bytes, offset, col, name_count)?;
    if rises_from(last, &element) && !others.has(&element) {
        Ok(element)
    } else {
        Err(ReadFault::Damaged(offset as u64))
    }
}

// So many elements from the offset on, and the offset behind them.
fn elements_at(
    alloc: Global,
    bytes: &[u8],
    start: usize,
    count: u32,
    col: Column,
    name_count: u32,
    others: &Set,
) -> Result<(Vec<Element>, usize), ReadFault>
    requires { start ≤ length bytes.now }
    ensures elements { IsReadAs (λ p. (p.0.items, p.1)) result (elements_at count col name_count bytes.now others.now start None) }
    ensures fits { IfOk result (λ p. p.1 ≤ length bytes.now) }
{
    // The bytes bound what is reserved: the count is not trusted.
    let room = (count as usize).min(bytes.len() / SMALLEST_ELEMENT);
    let mut items = Vec::with_capacity(alloc, room)?;
    let mut offset = start;
    let mut last = None;
    for _ in 0..count {
        let element = next_element_at(bytes, offset, col, name_count, last, others)?;
        offset += element_size(&element);
        last = Some(element);
        items.push(element)?;
    }
    Ok((items, offset))
}

// So many elements as a set, none of them among the others, and the offset behind them.
fn set_at(
    alloc: Global,
    bytes: &[u8],
    start: usize,
    count: u32,
    col: Column,
    name_count: u32,
    others: &Set,
) -> Result<(Set, usize), ReadFault>
    requires { start ≤ length bytes.now }
    ensures elements { IsReadAs (λ p. (p.0, p.1)) result (elements_at count col name_count bytes.now others.now start None) }
    ensures fits { IfOk result (λ p. p.1 ≤ length bytes.now) }
    ensures apart { IfOk result (λ p. AreApart others.now p.0) }
{
    let (items, end) = elements_at(alloc, bytes, start, count, col, name_count, others)?;
    Ok((Set::from_rising(items), end))
}

// The count of the elements to put in, which is not 0 where no element is taken out.
fn in_count_at(bytes: &[u8], offset: usize, out_count: u32) -> Result<u32, ReadFault>
    requires { offset ≤ length bytes.now }
    ensures number { IsReadAs (λ n. n) result (four_bytes (λ n. not (out_count == 0 && n == 0)) bytes.now offset) }
    ensures fits { OnOk result (offset + 4 ≤ length bytes.now) }
{
    let count = u32_at(bytes, offset)?;
    if out_count == 0 && count == 0 {
        Err(ReadFault::Damaged(offset as u64))
    } else {
        Ok(count)
    }
}

// The delta of two sets that share no element.
fn delta_of(minus: Set, plus: Set) -> Delta
    requires { AreApart minus plus }
    ensures { result ≡ record { minus = minus; plus = plus } }
{
    Delta::from_sets(minus, plus).unwrap()
}

// The delta, where nothing is wrong with the bytes: each of its two sets is read by itself, and one
// walk shows that they share no element. `None` where something is wrong, or memory ran out.
fn sound_delta(alloc: Global, bytes: &[u8], col: Column, name_count: u32) -> Option<Delta>
    ensures { IfSome result (λ d. changes_in col name_count bytes.now ≡ Ok d) }
{
    let out_count = u32_at(bytes, 0).ok()?;
    let (minus, offset) = set_here(alloc, bytes, COUNT_SIZE, out_count, col, name_count)?;
    let in_count = in_count_at(bytes, offset, out_count).ok()?;
    let (plus, end) = set_here(alloc, bytes, offset + COUNT_SIZE, in_count, col, name_count)?;
    if end == bytes.len() {
        Delta::from_sets(minus, plus)
    } else {
        None
    }
}

// The delta of a column in which a delta may have elements, or what is wrong.
fn any_changes(
    alloc: Global,
    bytes: &[u8],
    col: Column,
    name_count: u32,
) -> Result<Delta, ReadFault>
    ensures ok { IfOk result (λ d. changes_in col name_count bytes.now ≡ Ok d) }
    ensures err { IfErr result (λ fault. IsFaultOf fault (changes_in col name_count bytes.now)) }
{
    if bytes.is_empty() {
        return Ok(Delta::new(alloc));
    }
    if let Some(delta) = sound_delta(alloc, bytes, col, name_count) {
        return Ok(delta);
    }
    // Something is wrong: its first byte is looked for.
    let none = Set::new(alloc);
    let out_count = u32_at(bytes, 0)?;
    let (minus, offset) = set_at(alloc, bytes, COUNT_SIZE, out_count, col, name_count, &none)?;
    let in_count = in_count_at(bytes, offset, out_count)?;
    let (plus, end) = set_at(
        alloc,
        bytes,
        offset + COUNT_SIZE,
        in_count,
        col,
        name_count,
        &minus,
    )?;
    if end != bytes.len() {
        return Err(ReadFault::Damaged(end as u64));
    }
    Ok(delta_of(minus, plus))
}

// Whether a delta may have elements in the column: messages are in none.
fn may_change(col: Column) -> bool
    ensures { result ≡ may_change col }
{
    match col {
        Column::Structure | Column::NodeAttr | Column::EdgeAttr => true,
        Column::Transient => false,
    }
}

// The delta, or what is wrong.
fn any_delta(alloc: Global, bytes: &[u8], col: Column, names: u32) -> Result<Delta, ReadFault>
    ensures ok { IfOk result (λ d. delta_in col names bytes.now ≡ Ok d) }
    ensures err { IfErr result (λ fault. IsFaultOf fault (delta_in col names bytes.now)) }
{
    if may_change(col) {
        return any_changes(alloc, bytes, col, names);
    }
    if bytes.is_empty() {
        Ok(Delta::new(alloc))
    } else {
        Err(ReadFault::Damaged(0))
    }
}

/// The delta of one column, in a history with so many names. `Damaged` gives the offset of the first
/// byte of the first field that does not fit in the bytes or breaks a rule of the format
/// (docs/FORMATS.md), `Memory` says that memory ran out. A delta that is read rises, shares no element,
/// stands in the column, and names what there is.
pub fn read_delta(
    alloc: Global,
    bytes: &[u8],
    col: Column,
    name_count: u32,
) -> Result<Delta, ReadFault>
    ensures ok { IfOk result (λ d. delta_in col name_count bytes.now ≡ Ok d) }
    ensures fits { IfOk result (λ d. DeltaFits col name_count d) }
    ensures err { IfErr result (λ fault. IsFaultOf fault (delta_in col name_count bytes.now)) }
{
    any_delta(alloc, bytes, col, name_count)
}

// Adds the elements of the two sets of a delta to the lists, where each set by itself has nothing wrong. Answers the
// offset behind them.
fn push_sets(
    bytes: &[u8],
    col: Column,
    name_count: u32,
    minus: &mut Vec<Element>,
    plus: &mut Vec<Element>,
) -> Option<usize>
    ensures minus_kept { IsKept minus.old.items minus.new.items }
    ensures plus_kept { IsKept plus.old.items plus.new.items }
    ensures minus_set { IsSome result → IsSet (added minus.old.items minus.new.items) }
    ensures plus_set { IsSome result → IsSet (added plus.old.items plus.new.items) }
    ensures sound { IfSome result (λ end. end ≡ length bytes.now → AreApart (added minus.old.items minus.new.items) (added plus.old.items plus.new.items) → changes_in col name_count bytes.now ≡ Ok (record { minus = added minus.old.items minus.new.items; plus = added plus.old.items plus.new.items })) }
{
    let out_count = u32_at(bytes, 0).ok()?;
    let offset = push_elements(minus, bytes, COUNT_SIZE, out_count, col, name_count)?;
    let in_count = in_count_at(bytes, offset, out_count).ok()?;
    push_elements(plus, bytes, offset + COUNT_SIZE, in_count, col, name_count)
}

// Adds the two sets of a delta to the lists, where nothing is wrong with the bytes: each set is read by itself, and
// one walk shows that they share no element. `false` where something is wrong, or memory ran out: what the lists had
// stands in front also then.
fn push_sound(
    bytes: &[u8],
    col: Column,
    name_count: u32,
    minus: &mut Vec<Element>,
    plus: &mut Vec<Element>,
) -> bool
    ensures pushed { IsTrue result → (d : Delta) × (changes_in col name_count bytes.now ≡ Ok d) × (record { minus = minus.new.items; plus = plus.new.items } ≡ joined (record { minus = minus.old.items; plus = plus.old.items }) d) }
    ensures minus_kept { IsKept minus.old.items minus.new.items }
    ensures plus_kept { IsKept plus.old.items plus.new.items }
{
    let outs = minus.len();
    let ins = plus.len();
    match push_sets(bytes, col, name_count, minus, plus) {
        Some(end) => end == bytes.len() && are_apart(&minus[outs..], &plus[ins..]),
        None => false,
    }
}

/// Adds what the delta of one column takes out to the one list, and what it puts in to the other: each set stands behind
/// what its list had, with which it is not compared. `read_delta` says which bytes are those of a delta, and what an
/// `Err` says; then too what the lists had stands in front, and there may be more behind it.
pub fn push_delta(
    alloc: Global,
    bytes: &[u8],
    col: Column,
    name_count: u32,
    minus: &mut Vec<Element>,
    plus: &mut Vec<Element>,
) -> Result<(), ReadFault>
    ensures ok { OnOk result (IsPushed col name_count bytes.now (record { minus = minus.old.items; plus = plus.old.items }) (record { minus = minus.new.items; plus = plus.new.items })) }
    ensures err { IfErr result (λ fault. IsFaultOf fault (delta_in col name_count bytes.now)) }

    // Whatever the result.
    ensures minus_kept { IsKept minus.old.items minus.new.items }
    ensures plus_kept { IsKept plus.old.items plus.new.items }
{
    if may_change(col) && !bytes.is_empty() {
        let outs = minus.len();
        let ins = plus.len();
        if push_sound(bytes, col, name_count, minus, plus) {
            return Ok(());
        }
        // Something is wrong, or memory ran out: the bytes are read again, for the answer.
        minus.truncate(outs);
        plus.truncate(ins);
    }
    let delta = read_delta(alloc, bytes, col, name_count)?;
    minus.extend_from_slice(delta.minus().items())?;
    plus.extend_from_slice(delta.plus().items())?;
    Ok(())
}

// Where a delta ends with which the bytes begin, in a column in which a delta may have elements. `None` where
// something is wrong, or memory ran out. The elements that are taken out are kept only where others are put in, of
// which none may be among them.
fn end_of_changes(alloc: Global, bytes: &[u8], col: Column, name_count: u32) -> Option<usize>
    ensures { IfSome result (λ end. end ≡ length bytes.now → (d : Delta) × (changes_in col name_count bytes.now ≡ Ok d)) }
{
    let none = Set::new(alloc);
    let out_count = u32_at(bytes, 0).ok()?;
    let offset = end_here(bytes, COUNT_SIZE, out_count, col, name_count, &none)?;
    let in_count = in_count_at(bytes, offset, out_count).ok()?;
    let start = offset + COUNT_SIZE;
    if out_count == 0 || in_count == 0 {
        return end_here(bytes, start, in_count, col, name_count, &none);
    }
    let (minus, _) = set_here(alloc, bytes, COUNT_SIZE, out_count, col, name_count)?;
    end_here(bytes, start, in_count, col, name_count, &minus)
}

/// Whether the bytes are those of a delta in this column, in a history with so many names. `false` also
/// where memory ran out. No set is made of what is put in.
pub fn is_delta(alloc: Global, bytes: &[u8], col: Column, name_count: u32) -> bool
    ensures { IsTrue result → (d : Delta) × (delta_in col name_count bytes.now ≡ Ok d) }
{
    if bytes.is_empty() {
        return true;
    }
    if !may_change(col) {
        return false;
    }
    match end_of_changes(alloc, bytes, col, name_count) {
        Some(end) => end == bytes.len(),
        None => false,
    }
}
