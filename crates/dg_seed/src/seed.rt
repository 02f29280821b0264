//! The number with which the hashes of a table begin.

use crate::hasher::SeededHasher;
use std::hash::BuildHasher;
use std::random::RandomSource;

/// A number with which each hash of a table begins. Where it is not known, keys cannot be looked for that have one hash.
/// No answer depends on it.
#[derive(Clone, Copy)]
pub struct Seed {
    begun: SeededHasher,
}

impl Seed {
    /// The seed of this number.
    pub fn new(number: u64) -> Seed {
        Seed {
            begun: SeededHasher::begun(number),
        }
    }

    /// The seed of a number that the system chooses. Where it chooses none, that of 0.
    pub fn random(rt: &impl RandomSource) -> Seed {
        let mut bytes = [0; 8];
        match rt.fill_bytes(&mut bytes) {
            Ok(()) => Seed::new(u64::from_le_bytes(bytes)),
            Err(_) => Seed::new(0),
        }
    }
}

impl BuildHasher for Seed {
    type Hasher = SeededHasher;

    ghost build_hasher = { λ seed. seed.begun };

    fn build_hasher(&self) -> SeededHasher {
        self.begun
    }
}
