//! Plays scripts on a line editor, and tells what it answers and shows.
//!
//! Use it to try an editor without a terminal, as `lineedit_run` does; docs/SCRIPTS.md has the language of scripts.
//!
//! From `crates/lineedit_run/src/main.rt`:
//!
//! ```
//! let mut reader = rt.stdin();
//! let mut writer = rt.stdout();
//! match run(rt.alloc(), &mut reader, &mut writer) {
//!     Ok(()) => ExitCode::SUCCESS,
//! ```
#![tactic(auto)]

mod answer;
mod directive;
mod display;
mod escapes;
mod events;
mod fault;
mod input;
mod keys;
mod lines;
mod list_history;
mod new_editor;
mod number;
mod output;
mod playback;
mod player;
mod script_host;
mod shown;

pub use directive::{Directive, parse_line};
pub use display::{play_all, show_screen};
pub use escapes::unescape;
pub use events::{event_named, push_events};
pub use fault::RunFault;
pub use input::read_script;
pub use keys::key_named;
pub use lines::split_line;
pub use list_history::ListHistory;
pub use new_editor::read_line;
pub use output::{bad_line_text, put};
pub use player::run;
pub use script_host::ScriptHost;
