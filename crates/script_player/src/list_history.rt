//! A history as a list of strings.

ghost use Rattle.std.specs.Cow.{IsBorrowedStr, cow_str_bytes};
ghost use Rattle.std.specs.Prelude.{◌≡◌, ◌++◌, ◌∷◌, [], IfOk, IfSome, IsCharBoundary, IsOk, IsOkAnd, OnErr, OnOk, Some, if◌then◌else◌, is_ok, option_map, slice_get};
ghost use Rattle.tw_lineedit.specs.HistoryAdditions.{is_line, match_view, with_line};
ghost use Rattle.tw_lineedit.specs.NearestMatch.{last_line, nearest_match};

use std::alloc::{AllocError, Global};
use std::borrow::CowStr;
use std::marker::Model;
use tw_lineedit::{
    History, HistoryIndex, LentLines, SearchDirection, SearchResult, SearchStyle, nearest_line,
};

/// A history in memory, which keeps every line in a string of its own. It lends its lines and copies none
/// of them.
#[derive(Debug, Drop)]
pub struct ListHistory {
    entries: Vec<String>,
    alloc: Global,
}

impl Model for ListHistory {
    ghost use Rattle.std.specs.Prelude.{List, ℕ, map, string_bytes};

    ghost Value = { List (List ℕ) };

    ghost view = { λ h. map string_bytes h.entries.items };
}

impl ListHistory {
    /// Creates the history of no lines. Takes no memory: each `add` takes it from `alloc`.
    pub fn new(alloc: Global) -> Self
        ensures { result ≡ [] }
    {
        ListHistory {
            entries: Vec::new(alloc),
            alloc,
        }
    }

    fn ends_with(&self, line: &str) -> bool
        ensures { result ≡ is_line line.now (last_line self.now) }
    {
        match self.entries.last() {
            Some(last) => last.as_str() == line,
            None => false,
        }
    }

    fn append(&mut self, line: &str) -> Result<(), AllocError>
        ensures { self.new ≡ (if is_ok result then self.old ++ line.now ∷ [] else self.old) }
    {
        let line = String::from_str(self.alloc, line)?;
        self.entries.push(line)?;
        Ok(())
    }
}

impl LentLines for ListHistory {
    ghost lines = { λ h. h };

    fn line_count(&self) -> usize {
        self.entries.len()
    }

    fn line(&self, at: HistoryIndex) -> &str {
        self.entries[at].as_str()
    }
}

impl History for ListHistory {
    ghost lines = { λ h. h };

    ghost add_gives = { λ history line grown. grown ≡ with_line history line };

    /// Returns the line at `idx`, which is lent and not copied. Takes no memory.
    fn get(&self, _alloc: Global, idx: HistoryIndex) -> Result<Option<CowStr<'_>>, AllocError>
        ensures line { IsOkAnd result (λ line. option_map cow_str_bytes line
            ≡ slice_get self.now idx) }
        ensures borrowed { IfOk result (λ line. IfSome line IsBorrowedStr) }
    {
        match self.entries.get(idx) {
            Some(line) => Ok(Some(CowStr::Borrowed(line.as_str()))),
            None => Ok(None),
        }
    }

    fn last(&self) -> Option<HistoryIndex> {
        self.entries.len().checked_sub(1)
    }

    /// Adds a line at the end, unless it is the last line already. Takes memory for a new line only. Where
    /// that is lacking, the lines stay as they were.
    fn add(&mut self, line: &str) -> Result<(), AllocError>
        ensures last { OnOk result (last_line self.new ≡ Some line.now) }
        ensures refused { OnErr result (self.new ≡ self.old) }
        ensures added { OnOk result (self.new ≡ with_line self.old line.now) }
        ensures doubled { last_line self.old ≡ Some line.now → IsOk result }
    {
        if self.ends_with(line) {
            return Ok(());
        }
        self.append(line)
    }

    /// Returns the nearest match. Takes no memory.
    fn search(
        &self,
        _alloc: Global,
        idx: HistoryIndex,
        style: SearchStyle,
        direction: SearchDirection,
        pattern: &str,
    ) -> Result<Option<SearchResult<'_>>, AllocError>
        ensures found { IsOkAnd result (λ found.
            option_map match_view found ≡ nearest_match self.now idx direction pattern.now) }
        ensures boundary { IfOk result (λ found.
            IfSome found (λ m. IsCharBoundary (cow_str_bytes m.line) m.cursor)) }
        ensures borrowed { IfOk result (λ found. IfSome found (λ m. IsBorrowedStr m.line)) }
    {
        Ok(nearest_line(self, idx, style, direction, pattern))
    }
}
