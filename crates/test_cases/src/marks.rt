//! Marks, between which the gate counts the requests for memory.

use std::alloc::{AllocError, Global};

/// Begins or ends the counting, by a request of a size that no other one has.
pub fn mark(alloc: Global) -> Result<(), AllocError> {
    let _mark: Vec<u8> = Vec::with_capacity(alloc, 1_000_003)?;
    Ok(())
}

/// Begins or ends the counting where that is wanted.
pub fn mark_if(alloc: Global, is_wanted: bool) -> Result<(), AllocError> {
    if is_wanted {
        mark(alloc)?;
    }
    Ok(())
}
