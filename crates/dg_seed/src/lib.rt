//! The number with which the hashes of a table begin, and the hasher that begins with it.
#![tactic(auto)]

mod hasher;
mod seed;
#[cfg(test)]
mod tests;

pub use hasher::SeededHasher;
pub use seed::Seed;
