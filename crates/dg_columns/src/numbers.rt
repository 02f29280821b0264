//! Numbers at an offset of the bytes, the high byte first, where they fit in the bytes and are right.

ghost use Rattle.std.specs.Prelude.{◌≡◌, ◌+◌, ◌≤◌, ◌&&◌, ◌==◌, not, nat_lt, nat_le, length, OnOk};
ghost use Rattle.dg_graph.specs.ColumnGrammar.{any_number, one_byte, two_bytes, four_bytes, eight_bytes};
ghost use Rattle.dg_columns.specs.ReadOutcome.{IsReadAs};

use crate::fault::ReadFault;

/// The number of one byte, from `low` to `high`.
pub(crate) fn byte_at(bytes: &[u8], offset: usize, low: u8, high: u8) -> Result<u8, ReadFault>
    requires { offset ≤ length bytes.now }
    ensures number { IsReadAs (λ n. n) result (one_byte (λ n. nat_le low n && nat_le n high) bytes.now offset) }
    ensures fits { OnOk result (offset + 1 ≤ length bytes.now) }
{
    if bytes.len() == offset {
        return Err(ReadFault::Damaged(offset as u64));
    }
    let number = dg_numbers::byte_at(bytes, offset);
    if low <= number && number <= high {
        Ok(number)
    } else {
        Err(ReadFault::Damaged(offset as u64))
    }
}

/// The number of two bytes.
pub(crate) fn u16_at(bytes: &[u8], offset: usize) -> Result<u16, ReadFault>
    requires { offset ≤ length bytes.now }
    ensures number { IsReadAs (λ n. n) result (two_bytes any_number bytes.now offset) }
    ensures fits { OnOk result (offset + 2 ≤ length bytes.now) }
{
    if bytes.len() - offset < 2 {
        return Err(ReadFault::Damaged(offset as u64));
    }
    Ok(dg_numbers::u16_at(bytes, offset))
}

/// The number of four bytes.
pub(crate) fn u32_at(bytes: &[u8], offset: usize) -> Result<u32, ReadFault>
    requires { offset ≤ length bytes.now }
    ensures number { IsReadAs (λ n. n) result (four_bytes any_number bytes.now offset) }
    ensures fits { OnOk result (offset + 4 ≤ length bytes.now) }
{
    if bytes.len() - offset < 4 {
        return Err(ReadFault::Damaged(offset as u64));
    }
    Ok(dg_numbers::u32_at(bytes, offset))
}

/// The number of eight bytes.
pub(crate) fn u64_at(bytes: &[u8], offset: usize) -> Result<u64, ReadFault>
    requires { offset ≤ length bytes.now }
    ensures number { IsReadAs (λ n. n) result (eight_bytes any_number bytes.now offset) }
    ensures fits { OnOk result (offset + 8 ≤ length bytes.now) }
{
    if bytes.len() - offset < 8 {
        return Err(ReadFault::Damaged(offset as u64));
    }
    Ok(dg_numbers::u64_at(bytes, offset))
}

/// The number of two bytes, not below `low`.
pub(crate) fn position_at(bytes: &[u8], offset: usize, low: u32) -> Result<u16, ReadFault>
    requires { offset ≤ length bytes.now }
    ensures number { IsReadAs (λ n. n) result (two_bytes (λ n. nat_le low n) bytes.now offset) }
    ensures fits { OnOk result (offset + 2 ≤ length bytes.now) }
{
    let number = u16_at(bytes, offset)?;
    if low <= u32::from(number) {
        Ok(number)
    } else {
        Err(ReadFault::Damaged(offset as u64))
    }
}

/// The number of eight bytes, from `low` to `high`.
pub(crate) fn time_at(bytes: &[u8], offset: usize, low: u64, high: u64) -> Result<u64, ReadFault>
    requires { offset ≤ length bytes.now }
    ensures number { IsReadAs (λ n. n) result (eight_bytes (λ n. nat_le low n && nat_le n high) bytes.now offset) }
    ensures fits { OnOk result (offset + 8 ≤ length bytes.now) }
{
    let number = u64_at(bytes, offset)?;
    if low <= number && number <= high {
        Ok(number)
    } else {
        Err(ReadFault::Damaged(offset as u64))
    }
}

/// The number of four bytes, not below `low`.
pub(crate) fn count_at(bytes: &[u8], offset: usize, low: u32) -> Result<u32, ReadFault>
    requires { offset ≤ length bytes.now }
    ensures number { IsReadAs (λ n. n) result (four_bytes (λ n. nat_le low n) bytes.now offset) }
    ensures fits { OnOk result (offset + 4 ≤ length bytes.now) }
{
    let number = u32_at(bytes, offset)?;
    if low <= number {
        Ok(number)
    } else {
        Err(ReadFault::Damaged(offset as u64))
    }
}

/// The number of a name, of which there are `names`.
pub(crate) fn name_at(bytes: &[u8], offset: usize, name_count: u32) -> Result<u32, ReadFault>
    requires { offset ≤ length bytes.now }
    ensures number { IsReadAs (λ n. n) result (four_bytes (λ n. nat_lt n name_count) bytes.now offset) }
    ensures fits { OnOk result (offset + 4 ≤ length bytes.now) }
{
    let number = u32_at(bytes, offset)?;
    if number < name_count {
        Ok(number)
    } else {
        Err(ReadFault::Damaged(offset as u64))
    }
}

/// The number of an old value: 0, or one more than that of one of so many names.
pub(crate) fn old_at(bytes: &[u8], offset: usize, name_count: u32) -> Result<u32, ReadFault>
    requires { offset ≤ length bytes.now }
    ensures number { IsReadAs (λ n. n) result (four_bytes (λ n. nat_le n name_count) bytes.now offset) }
    ensures fits { OnOk result (offset + 4 ≤ length bytes.now) }
{
    let number = u32_at(bytes, offset)?;
    if number <= name_count {
        Ok(number)
    } else {
        Err(ReadFault::Damaged(offset as u64))
    }
}

/// The number of a new value, which is not 0 where the old one is.
pub(crate) fn new_at(
    bytes: &[u8],
    offset: usize,
    name_count: u32,
    old: u32,
) -> Result<u32, ReadFault>
    requires { offset ≤ length bytes.now }
    ensures number { IsReadAs (λ n. n) result (four_bytes (λ n. nat_le n name_count && not (old == 0 && n == 0)) bytes.now offset) }
    ensures fits { OnOk result (offset + 4 ≤ length bytes.now) }
{
    let number = u32_at(bytes, offset)?;
    let both_none = old == 0 && number == 0;
    if number <= name_count && !both_none {
        Ok(number)
    } else {
        Err(ReadFault::Damaged(offset as u64))
    }
}
