//! The number that stands at an offset of some bytes, the high byte first (docs/FORMATS.md). The bytes
//! are long enough: the caller tests that, who knows what to say where they are not.

ghost use Rattle.std.specs.Prelude.{◌≡◌, ◌+◌, ◌≤◌, length, take, drop};
ghost use Rattle.std.specs.Int.{from_be_bytes, w8, w16, w32, w64};

/// The number of the byte at the offset.
pub fn byte_at(bytes: &[u8], offset: usize) -> u8
    requires { offset + 1 ≤ length bytes.now }
    ensures { result ≡ from_be_bytes w8 (take 1 (drop offset bytes.now)) }
{
    let (_, rest) = bytes.split_at(offset);
    let (front, _) = rest.split_at(1);
    u8::from_be_bytes([front[0]])
}

/// The number of the two bytes from the offset on.
pub fn u16_at(bytes: &[u8], offset: usize) -> u16
    requires { offset + 2 ≤ length bytes.now }
    ensures { result ≡ from_be_bytes w16 (take 2 (drop offset bytes.now)) }
{
    let (_, rest) = bytes.split_at(offset);
    let (front, _) = rest.split_at(2);
    u16::from_be_bytes([front[0], front[1]])
}

/// The number of the four bytes from the offset on.
pub fn u32_at(bytes: &[u8], offset: usize) -> u32
    requires { offset + 4 ≤ length bytes.now }
    ensures { result ≡ from_be_bytes w32 (take 4 (drop offset bytes.now)) }
{
    let (_, rest) = bytes.split_at(offset);
    let (front, _) = rest.split_at(4);
    u32::from_be_bytes([front[0], front[1], front[2], front[3]])
}

/// The number of the eight bytes from the offset on.
pub fn u64_at(bytes: &[u8], offset: usize) -> u64
    requires { offset + 8 ≤ length bytes.now }
    ensures { result ≡ from_be_bytes w64 (take 8 (drop offset bytes.now)) }
{
    let (_, rest) = bytes.split_at(offset);
    let (front, _) = rest.split_at(8);
    u64::from_be_bytes([
        front[0], front[1], front[2], front[3], front[4], front[5], front[6], front[7],
    ])
}
