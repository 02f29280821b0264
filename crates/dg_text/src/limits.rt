//! The limits of lines and names.
ghost use Rattle.std.specs.Prelude.{◌≡◌, ◌^◌};

/// The most bytes that a line may have, its line end not counted.
pub const LINE_BYTES_MAX: usize = 4096;

/// The most bytes of a name: of a key or of a value.
pub const NAME_BYTES_MAX: usize = 1024;

/// The most bytes of a key.
pub const KEY_BYTES_MAX: usize = 64;

/// The most names of a history: 2^30.
pub const NAMES_MAX: u32 = 1_073_741_824;

/// The limits as numbers: lines, names and keys in bytes, and a count. Does nothing.
pub fn text_limits()
    ensures line { LINE_BYTES_MAX ≡ 4096 }
    ensures name { NAME_BYTES_MAX ≡ 1024 }
    ensures key { KEY_BYTES_MAX ≡ 64 }
    ensures names { NAMES_MAX ≡ 2 ^ 30 }
{}
