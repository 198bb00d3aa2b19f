//! A terminal over a writer that is sent what differs, and not all that is painted.
//!
//! Use `PatientTerminal` in the place of `AnsiTerminal` to send fewer bytes, and none while more keys are at hand
//! (docs/SPEED.md). It keeps a model of what is shown, a `StyledScreen`, whose cells hold characters of one
//! column under their attributes: a line with any other is sent as it is painted.
//!
//! From `crates/prompt_demo/src/main.rt`:
//!
//! ```
//! let terminal = PatientTerminal::new(alloc, output, size);
//! serve_at(rt, input.reading_ahead(), terminal, size)
//! ```
#![tactic(auto)]

mod ahead;
mod cell;
mod difference;
mod hand;
pub mod laws;
mod patient;
mod redrawer;
mod screen;
mod sending;
mod shown;

pub use cell::ScreenCell;
pub use hand::Hand;
pub use patient::PatientTerminal;
pub use screen::StyledScreen;
