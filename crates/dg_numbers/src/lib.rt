//! Numbers in bytes, the high byte first.
#![tactic(auto)]

mod numbers;

pub use numbers::{byte_at, u16_at, u32_at, u64_at};
