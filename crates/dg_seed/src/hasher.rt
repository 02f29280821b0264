//! The hasher of a seed: the library's, to which single bytes go seven at a time.
ghost use Rattle.std.specs.Prelude.{◌≡◌};
ghost use Rattle.dg_seed.specs.SeededHasher.{finish, taken, write};

use std::hash::{FoldHasher, Hasher};

// No byte waits.
const NO_BYTES: u64 = 1;
// From here on no further byte fits.
const FULL: u64 = 1 << 56;

/// Hashes as the library's `FoldHasher` does, but for bytes that come one by one, as those of a text do: these wait until
/// there are seven, which are then hashed as one number. What comes otherwise does not wait.
#[derive(Clone, Copy)]
pub struct SeededHasher {
    hasher: FoldHasher,
    // The bytes that wait, the last one lowest, behind a one.
    waiting: u64,
}

impl SeededHasher {
    /// Has hashed this number.
    pub(crate) fn begun(number: u64) -> SeededHasher {
        let mut hasher = FoldHasher::default();
        hasher.write_u64(number);
        SeededHasher {
            hasher,
            waiting: NO_BYTES,
        }
    }

    // Takes a byte, which waits until there are enough of them.
    #[inline(always)]
    fn take(&mut self, byte: u8)
        ensures { self.new ≡ taken self.old byte }
    {
        let waiting = self.waiting.wrapping_mul(256).wrapping_add(byte as u64);
        if waiting < FULL {
            self.waiting = waiting;
        } else {
            self.hasher.write_u64(waiting);
            self.waiting = NO_BYTES;
        }
    }
}

impl Hasher for SeededHasher {
    ghost write = { write };

    ghost finish = { finish };

    #[inline(always)]
    fn finish(&self) -> u64 {
        if self.waiting == NO_BYTES {
            return self.hasher.finish();
        }
        let mut hasher = self.hasher;
        hasher.write_u64(self.waiting);
        hasher.finish()
    }

    #[inline(always)]
    fn write(&mut self, bytes: &[u8]) {
        if bytes.len() == 1 {
            self.take(bytes[0]);
        } else {
            self.hasher.write(bytes);
        }
    }
}
