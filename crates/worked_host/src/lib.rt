//! A worked host, for a small command prompt: it shows a known command in bold, completes commands, and has two keys of
//! its own.
//!
//! Copy its files to write a host of your own; docs/OWN_PARTS.md explains them.
//!
//! From `crates/test_prompt/src/devices/commands.rt`:
//!
//! ```
//! let mut terminal = script_terminal(alloc, script)?;
//! ..
//! let answer = LineEditor::new(alloc, &mut terminal)?.read_line_and_remember(&mut self.host);
//! ```
#![tactic(auto)]

mod host;

pub use host::CommandHost;
