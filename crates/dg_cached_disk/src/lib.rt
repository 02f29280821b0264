//! A disk that keeps in memory the ranges that were read last.
#![tactic(auto)]

mod cached_disk;
mod laws;
mod range_cache;

pub use cached_disk::CachedDisk;
pub use laws::law_of_the_disk_below_no_more_is_taken;
pub use range_cache::RangeCache;
