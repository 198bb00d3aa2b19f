//! A prompt at a terminal, in a program: lines are read with history, hints, completions and readline's keys, or
//! plainly at a pipe.
//!
//! Start here. Set the fields of `prompt.host` for more, and implement `Application` for completions and colours of
//! your own (docs/GUIDE.md). `tools/at_terminal` starts the program.
//!
//! From `crates/first_prompt/src/main.rt`:
//!
//! ```
//! let mut prompt = Prompt::open(rt, "$ ")?;
//! for _ in 0..u64::MAX {
//!     match prompt.read()? {
//!         Answer::Line(line) => {
//!             let told = format!(in alloc; "read {line:?}")?;
//!             prompt.print(told.as_str())?;
//!         }
//!         Answer::Cancelled => {}
//!         Answer::End(_) => break,
//!     }
//! }
//! prompt.close()?;
//! ```
#![tactic(auto)]

mod application;
mod arguments;
mod error;
mod events;
mod joined;
mod keys;
mod line_ends;
mod listings;
mod marks;
mod offers;
mod painter;
mod pictures;
mod plain;
mod prompt;
mod session;
mod sizes;
mod streams;
mod style;
mod switched;

pub use application::{Application, read_with};
pub use arguments::Arguments;
pub use error::PromptError;
pub use events::{Pending, PromptEvents, TypedEvents};
pub use keys::{AllKeys, all_keys};
pub use listings::read_listing;
pub use marks::{BEGIN, END};
pub use offers::Offers;
pub use painter::Painter;
pub use pictures::{visible, visible_rows};
pub use prompt::{PromptOver, PromptTerminal};
pub use session::{Prompt, PromptKeys};
pub use sizes::{fitting, usable};
pub use streams::{LastError, TerminalInput, TerminalOutput, open_streams};
pub use style::Style;
pub use switched::Switched;
pub use tw_device::Answer;
pub use tw_history_parts::{FileHistory, RecentHistory, Unread};
pub use tw_prompt_host::{
    Hints, MarkPair, MenuStyle, NestedLines, PromptHost, Rows, Validation, Validator, common_pairs,
};
pub use tw_surface::{CellAttributes, ColorAttribute, Intensity, Underline};
pub use tw_typed::Typed;
