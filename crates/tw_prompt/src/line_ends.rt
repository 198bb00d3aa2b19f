//! The ends of lines.

use std::alloc::{AllocError, Global};

/// Returns lines with this end behind each of them, the last one too.
pub fn with_line_ends(alloc: Global, text: &str, end: &str) -> Result<String, AllocError> {
    let mut lines = String::new(alloc);
    for line in text.lines() {
        lines.push_str(line)?;
        lines.push_str(end)?;
    }
    Ok(lines)
}
