//! Histories that are kept in a file, or that keep only the newest lines.
//!
//! Use `FileHistory` if lines are to be there the next time, and `RecentHistory` in memory: `unique` keeps no line
//! twice.
//!
//! From `crates/tw_prompt/src/session.rt`:
//!
//! ```
//! let lines = RecentHistory::unique(alloc, limit);
//! self.host.history = FileHistory::open(self.rt, path, lines)?;
//! ```
#![tactic(auto)]

mod disk;
mod file;
pub mod laws;
mod recent;
mod written;

pub use file::Unread;
pub use recent::RecentHistory;
pub use written::{FileHistory, WrittenHistory};
