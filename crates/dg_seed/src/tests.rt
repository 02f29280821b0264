//! What no clause says: that hashes depend on the seed and on each byte, and that there is a seed in any case.
use crate::Seed;
use std::hash::BuildHasher;
use std::io;
use std::process::Abort;
use std::random::RandomSource;

const TEXT: [u8; 20] = *b"twenty bytes of text";

// A system that chooses no number.
struct Silent;

impl RandomSource for Silent {
    fn fill_bytes(&self, _buf: &mut [u8]) -> io::Result<()> {
        Err(io::ErrorKind::Unsupported.into())
    }
}

fn hash_of(seed: Seed, text: &[u8]) -> u64 {
    seed.hash_one(text)
}

#[test]
fn a_hash_depends_on_the_seed(rt: HostRuntime) {
    assert_eq!(rt; hash_of(Seed::new(1), &TEXT), hash_of(Seed::new(1), &TEXT));
    assert!(rt; hash_of(Seed::new(1), &TEXT) != hash_of(Seed::new(2), &TEXT));
    assert!(rt; hash_of(Seed::random(&rt), &TEXT) != hash_of(Seed::random(&rt), &TEXT));
    assert_eq!(rt;
        hash_of(Seed::random(&Silent), &TEXT),
        hash_of(Seed::new(0), &TEXT)
    );
}

#[test]
fn a_hash_depends_on_each_byte(rt: HostRuntime) {
    let seed = Seed::new(1);
    for at in 0..TEXT.len() {
        let mut other = TEXT;
        other[at] = b'_';
        assert!(rt; hash_of(seed, &other) != hash_of(seed, &TEXT));
        assert!(rt; hash_of(seed, &TEXT[..at]) != hash_of(seed, &TEXT));
    }
}
