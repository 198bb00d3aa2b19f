//! What can complete a line.

use crate::application::Application;
use std::alloc::{AllocError, Global};
use std::ops::Range;
use tw_lineedit::CompletionCandidate;

/// Collects what can complete a line.
#[derive(Drop)]
pub struct Offers<'line> {
    /// The byte offset of the cursor.
    pub cursor: usize,
    /// What stands before the word.
    pub before: &'line str,
    /// The word before the cursor, of characters for which `Application::is_word` is true.
    pub word: &'line str,
    alloc: Global,
    candidates: Vec<CompletionCandidate>,
}

impl<'line> Offers<'line> {
    /// Creates a collection of nothing for a line with its cursor at the byte offset `cursor`.
    pub(crate) fn new<A: Application>(
        alloc: Global,
        application: &A,
        line: &'line str,
        cursor: usize,
    ) -> Self {
        let line = line.get(..cursor).unwrap_or("");
        let mut start = 0;
        for (at, c) in line.char_indices() {
            if !application.is_word(c) {
                start = at.saturating_add(c.len_utf8());
            }
        }
        Offers {
            cursor,
            before: line.get(..start).unwrap_or(""),
            word: line.get(start..).unwrap_or(""),
            alloc,
            candidates: Vec::new(alloc),
        }
    }

    /// Returns the allocator.
    pub fn alloc(&self) -> Global {
        self.alloc
    }

    /// Offers a text in the place of the word, if it begins with the word.
    pub fn offer(&mut self, text: &str) -> Result<(), AllocError> {
        if !text.starts_with(self.word) {
            return Ok(());
        }
        let start = self.before.len();
        let text = String::from_str(self.alloc, text)?;
        self.add(start..start.saturating_add(self.word.len()), text)
    }

    /// Offers a text in the place of a part of the line, by its byte offsets.
    pub fn add(&mut self, range: Range<usize>, text: String) -> Result<(), AllocError> {
        self.candidates.push(CompletionCandidate { range, text })?;
        Ok(())
    }

    /// Returns what was offered.
    pub(crate) fn into_candidates(self) -> Vec<CompletionCandidate> {
        self.candidates
    }
}
