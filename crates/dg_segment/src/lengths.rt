//! The two lengths with which a segment begins.

ghost use Rattle.std.specs.Prelude.{◌≡◌, ◌+◌, ◌≤◌, length};
ghost use Rattle.dg_segment.specs.Directories.{are_marking, segment_lengths_at, fit_in};

use dg_history::FILE_BYTES_MAX;
use dg_numbers::u64_at;

/// The bytes of the two lengths in front of a directory.
pub const LENGTHS_BYTES: usize = 16;

/// The bytes of a marker behind its lengths: a number of events, which is 0.
pub const MARKER_BYTES: u64 = 8;

/// The bytes of a segment's directory and of its columns.
#[derive(Clone, Copy)]
pub struct Lengths {
    /// The bytes of the directory.
    pub directory: u64,
    /// The bytes of the columns of all records.
    pub columns: u64,
}

impl Lengths {
    /// The lengths in these bytes.
    pub fn read(bytes: &[u8]) -> Lengths
        requires { length bytes.now ≡ 16 }
        ensures { result ≡ segment_lengths_at bytes.now 0 }
    {
        Lengths {
            directory: u64_at(bytes, 0),
            columns: u64_at(bytes, 8),
        }
    }

    /// Whether these are the lengths of a marker.
    pub fn are_marking(&self) -> bool
        ensures { result ≡ are_marking self.now }
    {
        self.directory == MARKER_BYTES && self.columns == 0
    }

    /// Whether a segment at the offset with these lengths, and the gate behind it, end within `len` bytes
    /// and within a file.
    pub fn fit_in(&self, offset: u64, len: u64) -> bool
        requires { offset + 17 ≤ len }
        ensures { result ≡ fit_in offset len self.now }
    {
        let room = len.min(FILE_BYTES_MAX);
        offset + 17 <= room
            && self.directory <= room - offset - 17
            && self.columns <= room - offset - 17 - self.directory
    }
}
