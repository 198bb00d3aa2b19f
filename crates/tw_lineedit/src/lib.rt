//! A line editor: it reads a line from a terminal, or is fed one, and shows it there.
//!
//! Use it over any `Terminal`, with a host of your own or of `tw_hosts`. The names of the crates below that an
//! application needs are passed on.
//!
//! # Example
//!
//! From `crates/script_player/src/new_editor.rt`:
//!
//! ```
//! pub fn read_line<T: Terminal, H: LineEditorHost>(
//!     alloc: Global,
//!     terminal: &mut T,
//!     host: &mut H,
//!     prompt: &str,
//! ) -> Result<Option<String>, Error>
//! ..
//!     let mut editor = LineEditor::new(alloc, terminal)?;
//!     editor.set_prompt(prompt)?;
//!     editor.read_line(host)
//! ```
//!
//! `ScriptTerminal` of `tw_terminal` is a terminal to try it with, and `NopLineEditorHost` the plain host. At a
//! real terminal, `read_line_from` of `tw_device` does all of that, with events that it makes of bytes, and `Prompt` of
//! `tw_prompt` has the comforts.
//!
//! # Keys
//!
//! A host may give any event another action, or none (`LineEditorHost::resolve_action`). If it does not:
//!
//! | Key | What it does |
//! |---|---|
//! | Enter, Ctrl-J, Ctrl-M | accepts the line |
//! | Ctrl-C, Ctrl-D | cancels it; ends the input |
//! | Left, Right, Ctrl-B, Ctrl-F | moves by a grapheme cluster |
//! | Alt-Left, Alt-Right, Alt-b, Alt-f | moves by a word |
//! | Home, End, Ctrl-A, Ctrl-E | moves to the start, to the end |
//! | Backspace, Ctrl-H, Delete | kills the cluster before, at the cursor |
//! | Ctrl-W, Ctrl-K | kills the word before, the rest of the line |
//! | Up, Down, Ctrl-P, Ctrl-N | walks through the history |
//! | Ctrl-R, Ctrl-S | searches it, backward and forward |
//! | Tab | completes, and goes on through the candidates |
//! | Ctrl-L | clears the screen and repaints |
#![tactic(auto)]

mod editor;
pub mod laws;
mod remembering;

pub use editor::{EditorOver, LineEditor, LineStatus};
pub use tw_host::{
    Action, CompletionCandidate, LineEditorHost, NopLineEditorHost, OutputElement, Overrides,
    copy_candidates, default_action, plain_element, plain_line,
};
pub use tw_line::{
    BasicHistory, History, HistoryIndex, LentLines, LineEditBuffer, Movement, RepeatCount,
    SearchDirection, SearchResult, SearchStyle, nearest_line,
};
pub use tw_session::{Error, Session};
