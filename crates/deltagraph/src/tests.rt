//! What only calls can show: failing sources, sinks and disks, limits below the standard, a file that is written from
//! outside, worked values of sets, deltas and the pool, cells that come and go, ranges that are kept, and two threads at work.

mod algebra;
mod arena;
mod cache;
mod disk;
mod halves;
mod lines;
mod pool;
mod run;
