//! A line of text with a cursor, the movements over it, and histories of lines.
//!
//! Use it without an editor to edit a line that something else shows, or to write a history of your own
//! (docs/GUIDE.md).
//!
//! From `crates/test_editor/src/layers/line.rt`:
//!
//! ```
//! let mut buffer = LineEditBuffer::new(alloc, after, 0)?;
//! buffer.insert_text(before)?;
//! ..
//! let cursor = buffer.get_cursor();
//! let line = buffer.get_line();
//! ```
#![tactic(auto)]

mod buffer;
mod clusters;
mod history;
pub mod laws;
mod movements;
mod starts;
mod text;
mod words;

pub use buffer::LineEditBuffer;
pub use history::{
    BasicHistory, History, HistoryIndex, LentLines, SearchDirection, SearchResult, SearchStyle,
    nearest_line,
};
pub use movements::{Movement, RepeatCount};
