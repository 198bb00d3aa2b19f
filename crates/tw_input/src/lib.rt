//! Keys, modifiers and the events of a terminal.
//!
//! Use it to name a key of your own, or to tell an editor what was typed.
//!
//! From `crates/test_prompt/src/row_cells.rt`:
//!
//! ```
//! let back = InputEvent::Key(KeyEvent {
//!     key: KeyCode::LeftArrow,
//!     modifiers: Modifiers::NONE,
//! });
//! ```
#![tactic(auto)]

mod event;
mod key;
pub mod laws;

pub use event::InputEvent;
pub use key::{KeyCode, KeyEvent, Modifiers};
