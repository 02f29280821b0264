//! A value and its bits.
ghost use Rattle.std.specs.Prelude.{◌≡◌, ℕ, ◌==◌, cond};
ghost use Rattle.dg_arena.specs.Cells.{has_bit, ClearsBits};

/// A value, and 256 bits.
#[derive(Clone, Copy)]
pub struct Row<T> {
    pub element: T,
    pub bits: [u64; 4],
}

/// Whether the bit is set.
pub fn has_bit<T>(row: &Row<T>, bit: u8) -> bool
    ensures { result ≡ has_bit row.now bit }
{
    (row.bits[(bit / 64) as usize] >> (bit % 64)) & 1 == 1
}

/// Sets the bit or puts it off.
pub fn set_bit<T>(row: &mut Row<T>, bit: u8, on: bool)
    ensures element { row.new.element ≡ row.old.element }
    ensures bits { (c : ℕ) → has_bit row.new c ≡ cond (c == bit) on (has_bit row.old c) }
{
    let word = (bit / 64) as usize;
    if on {
        row.bits[word] |= 1 << (bit % 64);
    } else {
        row.bits[word] &= !(1 << (bit % 64));
    }
}

/// The row without the bits of the mask.
pub fn without_bits<T: Copy>(row: Row<T>, mask: [u64; 4]) -> Row<T>
    ensures { ClearsBits mask row result }
{
    Row {
        element: row.element,
        bits: [
            row.bits[0] & !mask[0],
            row.bits[1] & !mask[1],
            row.bits[2] & !mask[2],
            row.bits[3] & !mask[3],
        ],
    }
}
