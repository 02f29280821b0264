//! How the C library keeps memory that is freed.

use std::alloc::{AllocError, Global};

/// The block that the C library gives back first. With a larger one, blocks of a large graph lie beside one another unused.
const KEPT_BYTES: usize = 512 * 1024;

/// Has the C library keep memory that is freed for what is needed next. It gives a large block back to the system at once,
/// and then takes the next one anew, page by page; but it keeps those that are no larger than the largest block that it has
/// given back. No byte of this block is touched. Where memory lacks nothing is lost but time.
pub fn keep_freed(alloc: Global) {
    let block: Result<Vec<u8>, AllocError> = Vec::with_capacity(alloc, KEPT_BYTES);
    drop(block);
}
