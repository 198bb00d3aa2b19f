//! The bytes that are typed at a terminal in raw mode, without the reports that the terminal puts into pasted texts.
//!
//! Use `Typed` under the `KeyReader` of `tw_device`, over what reads the terminal.
//!
//! From `crates/tw_prompt/src/events.rt`:
//!
//! ```
//! let most = if input.reads_ahead() { PIECE } else { 1 };
//! let gathers = input.is_terminal();
//! let typed = Typed::new(alloc, input, clock, most, gathers);
//! PromptEvents::over(alloc, KeyReader::new(alloc, typed), true)
//! ```
#![tactic(auto)]

pub mod laws;
mod sieve;
mod typed;

pub use typed::{PIECE, Typed};
