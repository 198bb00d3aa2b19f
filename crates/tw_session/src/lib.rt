//! What a line editor holds beside its terminal, the steps of the abstract editor on it, and how it is painted.
//!
//! `LineEditor` of `tw_lineedit` has one. Use a `Session` without it for an editor that reads or paints in another way.
//!
//! From `crates/tw_lineedit/src/editor.rt`:
//!
//! ```
//! let size = self.terminal.get_screen_size()?;
//! let (changes, mark) = self.session.painting(host, size)?;
//! self.terminal.render(changes.as_slice())?;
//! self.session.set_mark(mark);
//! ```
#![tactic(auto)]

mod error;
pub mod laws;
mod painter;
mod session;

pub use error::Error;
pub use painter::{Below, Mark, painting};
pub use session::Session;
