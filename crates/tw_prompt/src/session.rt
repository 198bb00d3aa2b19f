//! A prompt of ready parts.

use crate::application::Application;
use crate::error::PromptError;
use crate::keys::{AllKeys, all_keys};
use crate::prompt::{PromptOver, PromptTerminal};
use crate::switched::Switched;
use std::env;
use std::io::{IsTerminal, Write};
use tw_device::Answer;
use tw_history_parts::{FileHistory, RecentHistory};
use tw_key_parts::RowKeys;
use tw_prompt_host::{Hints, PreparedHost, PreparedLines, PromptHost, Rows};

/// The columns of a prompt before it is opened at a terminal.
const COLS: usize = 80;

/// How many lines a history in memory keeps.
const LINES_KEPT: usize = 1000;

/// The message if lines can't be written to the file of a history.
const NOT_KEPT: &str = "the history can't be written: it is kept up to the end of the session";

/// The message if the program was started at a terminal by itself.
const NOT_STARTED: &str = "lines are read plainly: tools/at_terminal starts a prompt with keys\n";

/// The keys of a prompt: those of rows, if lines are shown in rows, and all others.
pub type PromptKeys = (Switched<RowKeys>, AllKeys);

/// A prompt with all keys, hints after the cursor, and a history in memory or in a file.
pub type Prompt = PromptOver<PromptTerminal, PreparedHost, FileHistory, PromptKeys, PreparedLines>;

impl PromptOver<PromptTerminal, PreparedHost, FileHistory, PromptKeys, PreparedLines> {
    /// Opens a prompt with this text. At a terminal without `tools/at_terminal` it reads plain lines, and says so on
    /// standard error. Fails as `over` does.
    pub fn open(rt: HostRuntime, prompt: &str) -> Result<Self, PromptError> {
        let alloc = rt.alloc();
        let rows = Switched {
            part: RowKeys::new(),
            is_on: false,
        };
        let lines = RecentHistory::unique(alloc, LINES_KEPT);
        let mut host = PromptHost::new(alloc, prompt, COLS)?
            .with_host(PreparedHost::new(alloc))
            .with_history(FileHistory::in_memory(alloc, lines))
            .with_keys((rows, all_keys(alloc)))
            .with_validator(PreparedLines::new(alloc));
        host.hints = Hints::dim();
        let opened = PromptOver::over(rt, host)?;
        if !opened.is_typed() && rt.stdin().is_terminal() && !is_dumb(rt) {
            let told = rt.stderr().write_all(NOT_STARTED.as_bytes());
            told.map_err(PromptError::Pipe)?;
        }
        Ok(opened)
    }

    /// Shows lines in rows, behind this continuation prompt, with keys for rows: Enter begins one in an incomplete line,
    /// and pasted texts keep theirs.
    pub fn show_rows(&mut self, continuation: &str) -> Result<(), PromptError> {
        self.host.rows = Rows::Several(String::from_str(self.rt.alloc(), continuation)?);
        self.host.keys.0.is_on = true;
        Ok(())
    }

    /// Keeps the last `limit` typed lines, and none twice, in the file at `path`, and takes up those that it has. Prints
    /// what can't be read or written, and the session goes on with a history in memory. Lines of a pipe are not kept.
    pub fn keep_history(&mut self, path: &str, limit: usize) -> Result<(), PromptError> {
        if !self.is_typed() {
            return Ok(());
        }
        let alloc = self.rt.alloc();
        let lines = RecentHistory::unique(alloc, limit);
        self.host.history = FileHistory::open(self.rt, path, lines)?;
        if let Some(unread) = self.host.history.unread() {
            let told = format!(in alloc; "the history: {unread}")?;
            self.print(told.as_str())?;
        }
        self.tell_unkept()
    }

    /// Prints that lines can't be written to the file of the history, if it is so and was not said. `run` says it by
    /// itself.
    pub fn tell_unkept(&mut self) -> Result<(), PromptError> {
        if self.host.history.take_failure() {
            self.print(NOT_KEPT)?;
        }
        Ok(())
    }

    /// Reads lines with the functions of an application, and prints what it answers, up to the end of the input or to a
    /// line without an answer. Closes the prompt, and returns what ended it: `Answer::End` or `Answer::Line`.
    pub fn run<A: Application>(mut self, application: &mut A) -> Result<Answer, PromptError> {
        let mut last = Answer::Cancelled;
        for _ in 0..u64::MAX {
            self.tell_unkept()?;
            last = self.read_with(application)?;
            let answer = match &last {
                Answer::Line(line) => application.answer(self.rt.alloc(), line.as_str())?,
                Answer::Cancelled => continue,
                Answer::End(_) => None,
            };
            match answer {
                Some(text) => self.print(text.as_str())?,
                None => break,
            }
        }
        self.tell_unkept()?;
        self.close()?;
        Ok(last)
    }
}

/// Returns true if the terminal has no keys.
fn is_dumb(rt: HostRuntime) -> bool {
    match env::var(&rt, "TERM") {
        Ok(name) => name.as_str() == "dumb",
        Err(_) => true,
    }
}
