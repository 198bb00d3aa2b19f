//! The terminal that a line editor works on, and one that plays a script.
//!
//! Implement `Terminal` to adapt a terminal of your own (docs/OWN_PARTS.md), and use `ScriptTerminal` in tests.
//!
//! From `crates/test_prompt/src/devices/shown.rt`:
//!
//! ```
//! let size = ScreenSize { rows: 24, cols: 80 };
//! let mut terminal = ScriptTerminal::new(alloc, size, Vec::new(alloc));
//! for at in 0..changes.len() {
//!     terminal.render(&changes[at..at + 1])?;
//! }
//! ```
#![tactic(auto)]

mod batch_log;
pub mod laws;
mod log;
mod script;
mod terminal;

pub use batch_log::BatchLog;
pub use log::Log;
pub use script::ScriptTerminal;
pub use terminal::{ScreenSize, Terminal, TerminalFault};
