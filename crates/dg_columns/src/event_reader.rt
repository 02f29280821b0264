//! Reading an event column. One of structure is first read with one test of the room for each event; what is wrong, and
//! where, is looked for only where something is.

ghost use Rattle.std.specs.Prelude.{◌≡◌, ◌+◌, ◌≤◌, ℕ, List, length, Ok, IfOk, IfErr, IfSome};
ghost use Rattle.dg_graph.specs.ColumnGrammar.{body_at, body_size, events_at, events_in};
ghost use Rattle.dg_columns.specs.ReadOutcome.{IsReadAs, IsFaultOf};
ghost use Rattle.dg_columns.specs.Fields.{placed_at};
ghost use Rattle.dg_columns.specs.Fronts.{IsToldByFront, front_of};
ghost use Rattle.dg_columns.specs.ReadFits.{PlacedFit};

use crate::event_fields::{body_at, body_size};
use crate::fault::ReadFault;
use crate::layout::{
    COUNT_SIZE, EDGE_ADDED, EDGE_REMOVED, NODE_ADDED, NODE_REMOVED, SMALLEST_EVENT, STAMP_SIZE,
};
use crate::numbers::{count_at, position_at, time_at};
use crate::sound_elements::edge_here;
use dg_graph::{Body, Column, Event, Placed, TIME_MAX};
use std::alloc::Global;

// What an event of structure changes, where nothing is wrong.
#[inline(always)]
fn structure_here(bytes: &[u8], offset: usize, name_count: u32) -> Option<Body>
    requires { offset + 9 ≤ length bytes.now }
    ensures body { IfSome result (λ b. body_at Column.Structure name_count bytes.now offset ≡ Ok b) }
    ensures fits { IfSome result (λ b. offset + body_size b ≤ length bytes.now) }
{
    match dg_numbers::byte_at(bytes, offset) {
        NODE_ADDED => {
            let id = dg_numbers::u64_at(bytes, offset + 1);
            Some(Body::NodeAdded { id })
        }
        NODE_REMOVED => {
            let id = dg_numbers::u64_at(bytes, offset + 1);
            Some(Body::NodeRemoved { id })
        }
        EDGE_ADDED => {
            let edge = edge_here(bytes, offset + 1)?;
            Some(Body::EdgeAdded {
                id: edge.id,
                src: edge.src,
                dst: edge.dst,
                directed: edge.directed,
            })
        }
        EDGE_REMOVED => {
            let edge = edge_here(bytes, offset + 1)?;
            Some(Body::EdgeRemoved {
                id: edge.id,
                src: edge.src,
                dst: edge.dst,
                directed: edge.directed,
            })
        }
        _ => None,
    }
}

// The event of structure at the offset, with its position, where nothing is wrong.
#[inline(always)]
fn placed_here(
    bytes: &[u8],
    offset: usize,
    name_count: u32,
    low: u32,
    earliest: u64,
) -> Option<Placed>
    requires { offset ≤ length bytes.now }
    ensures placed { IfSome result (λ p. placed_at Column.Structure name_count bytes.now offset low earliest ≡ Ok p) }
    ensures fits { IfSome result (λ p. offset + 10 + body_size p.event.body ≤ length bytes.now) }
{
    if bytes.len() - offset < SMALLEST_EVENT {
        return None;
    }
    let at = dg_numbers::u16_at(bytes, offset);
    let time = dg_numbers::u64_at(bytes, offset + 2);
    if u32::from(at) < low || time < earliest || time > TIME_MAX {
        return None;
    }
    let body = structure_here(bytes, offset + STAMP_SIZE, name_count)?;
    Some(Placed {
        at,
        event: Event { time, body },
    })
}

// The event at the offset, with its position.
fn placed_at(
    bytes: &[u8],
    offset: usize,
    col: Column,
    name_count: u32,
    low: u32,
    earliest: u64,
) -> Result<Placed, ReadFault>
    requires { offset ≤ length bytes.now }
    ensures placed { IsReadAs (λ p. p) result (placed_at col name_count bytes.now offset low earliest) }
    ensures fits { IfOk result (λ p. offset + 10 + body_size p.event.body ≤ length bytes.now) }
{
    let position = position_at(bytes, offset, low)?;
    let time = time_at(bytes, offset + 2, earliest, TIME_MAX)?;
    let body = body_at(bytes, offset + STAMP_SIZE, col, name_count)?;
    Ok(Placed {
        at: position,
        event: Event { time, body },
    })
}

// The events of a column, which follow its count.
fn placed_from(
    alloc: Global,
    bytes: &[u8],
    col: Column,
    name_count: u32,
    count: u32,
) -> Result<Vec<Placed>, ReadFault>
    requires { 4 ≤ length bytes.now }
    ensures { IsReadAs (λ v. v.items) result (events_at count col name_count bytes.now 4 0 0) }
{
    // The bytes bound what is reserved: the count is not trusted.
    let room = (count as usize).min(bytes.len() / SMALLEST_EVENT);
    let mut placed = Vec::with_capacity(alloc, room)?;
    let mut offset = COUNT_SIZE;
    let mut low = 0;
    let mut earliest = 0;
    for _ in 0..count {
        let event = placed_at(bytes, offset, col, name_count, low, earliest)?;
        offset += STAMP_SIZE + body_size(&event.event.body);
        low = u32::from(event.at) + 1;
        earliest = event.event.time;
        placed.push(event)?;
    }
    if offset != bytes.len() {
        return Err(ReadFault::Damaged(offset as u64));
    }
    Ok(placed)
}

// The events of a column of structure, which follow its count, where nothing is wrong. `None` where something is, or memory
// ran out.
fn structure_from(alloc: Global, bytes: &[u8], name_count: u32, count: u32) -> Option<Vec<Placed>>
    requires { 4 ≤ length bytes.now }
    ensures { IfSome result (λ v. events_at count Column.Structure name_count bytes.now 4 0 0 ≡ Ok v.items) }
{
    // The bytes bound what is reserved: the count is not trusted.
    let room = count as usize;
    if room > bytes.len() / SMALLEST_EVENT {
        return None;
    }
    let mut placed = Vec::with_capacity(alloc, room).ok()?;
    let mut offset = COUNT_SIZE;
    let mut low = 0;
    let mut earliest = 0;
    for _ in 0..count {
        let event = placed_here(bytes, offset, name_count, low, earliest)?;
        offset += STAMP_SIZE + body_size(&event.event.body);
        low = u32::from(event.at) + 1;
        earliest = event.event.time;
        placed.push_reserved(event);
    }
    if offset == bytes.len() {
        Some(placed)
    } else {
        None
    }
}

// The events of a column, which follow its count, or what is wrong.
fn events_from(
    alloc: Global,
    bytes: &[u8],
    col: Column,
    name_count: u32,
    count: u32,
) -> Result<Vec<Placed>, ReadFault>
    requires { 4 ≤ length bytes.now }
    ensures { IsReadAs (λ v. v.items) result (events_at count col name_count bytes.now 4 0 0) }
{
    if col == Column::Structure {
        if let Some(placed) = structure_from(alloc, bytes, name_count, count) {
            return Ok(placed);
        }
    }
    // Here too where something is wrong with structure: it is looked for.
    placed_from(alloc, bytes, col, name_count, count)
}

// The events, or what is wrong.
fn any_events(
    alloc: Global,
    bytes: &[u8],
    col: Column,
    name_count: u32,
) -> Result<Vec<Placed>, ReadFault>
    ensures ok { IfOk result (λ placed. events_in col name_count bytes.now ≡ Ok placed.items) }
    ensures err { IfErr result (λ fault. IsFaultOf fault (events_in col name_count bytes.now)) }
{
    if bytes.is_empty() {
        return Ok(Vec::new(alloc));
    }
    let count = count_at(bytes, 0, 1)?;
    events_from(alloc, bytes, col, name_count, count)
}

/// The events of a column with their positions, in a history with so many names. `Damaged` gives the
/// offset of the first byte of the first field that does not fit in the bytes or breaks a rule of the
/// format (docs/FORMATS.md), `Memory` says that memory ran out. Events that are read rise in their
/// positions, do not fall in time, stand in the column, and name what there is. `EVENTS_FRONT` bytes of a column that
/// has more tell that it is damaged.
pub fn read_events(
    alloc: Global,
    bytes: &[u8],
    col: Column,
    name_count: u32,
) -> Result<Vec<Placed>, ReadFault>
    ensures ok { IfOk result (λ placed. events_in col name_count bytes.now ≡ Ok placed.items) }
    ensures fits { IfOk result (λ placed. PlacedFit col name_count 0 0 placed.items) }
    ensures err { IfErr result (λ fault. IsFaultOf fault (events_in col name_count bytes.now)) }
    ensures front { (whole : List ℕ) → bytes.now ≡ front_of whole → IsToldByFront col name_count bytes.now whole }
{
    any_events(alloc, bytes, col, name_count)
}
