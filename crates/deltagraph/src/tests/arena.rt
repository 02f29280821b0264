//! Cells in raw memory: those that are given back, those that stay as more come, and that their memory is given back.

use dg_arena::{Row, Rows};
use std::test::Fail;

#[test]
fn a_cell_that_was_given_back_is_taken_with_no_bit(rt: HostRuntime) -> Result<(), Fail> {
    let mut rows = Rows::new(rt.alloc());
    rows.reserve(2)?;
    let a = rows.take(10);
    let b = rows.take(20);
    rows.set_bit(a, 7, true);
    rows.set_bit(b, 255, true);
    rows.give(a);
    let c = rows.take(30);
    assert_eq!(rt; rows.value(c), 30);
    assert_eq!(rt; rows.bits(c), [0; 4]);
    assert!(rt; rows.get(b).is_some());
    assert_eq!(rt; rows.value(b), 20);
    assert_eq!(rt; rows.bits(b), [0, 0, 0, 1 << 63]);
    assert!(rt; rows.bit(b, 255));
    assert_eq!(rt; rows.next(None), Some(0));
    assert_eq!(rt; rows.next(Some(0)), Some(1));
    assert_eq!(rt; rows.next(Some(1)), None);
    Ok(())
}

// More cells than one chunk has, and room that is refused.
#[test]
fn cells_stay_as_more_come(rt: HostRuntime) -> Result<(), Fail> {
    let mut rows = Rows::new(rt.alloc());
    rows.reserve(1)?;
    let first = rows.insert(Row {
        element: 7,
        bits: [1, 2, 3, 4],
    });
    assert!(rt; rows.reserve(4_294_967_296).is_err());
    for n in 1..5_000 {
        rows.reserve(1)?;
        assert_eq!(rt; rows.vacancy(), n);
        rows.take(n);
    }
    assert!(rt; rows.get(first).is_some());
    rows.clear_mask(first, [1, 0, 1, 0]);
    assert!(rt; rows.get(first).is_some());
    assert_eq!(rt; rows.bits(first), [0, 2, 2, 4]);
    assert_eq!(rt; rows.len(), 5_000);
    assert!(rt; rows.get(4_999).is_some());
    assert_eq!(rt; rows.value(4_999), 4_999);
    assert!(rt; rows.get(5_000).is_none());
    assert_eq!(rt; rows.next(Some(4_999)), None);
    Ok(())
}

// A value of a mebibyte, so that a chunk of cells has more than a gibibyte. None is made.
#[derive(Clone, Copy)]
struct Large {
    words: [u64; 131_072],
}

// Together these blocks are larger than an address space of 48 bits, so they are not all there at once.
#[test]
fn memory_that_was_reserved_is_given_back(rt: HostRuntime) -> Result<(), Fail> {
    for _ in 0..300_000 {
        let mut rows: Rows<Large> = Rows::new(rt.alloc());
        rows.reserve(1)?;
    }
    Ok(())
}
