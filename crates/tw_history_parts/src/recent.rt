//! A history that keeps the newest lines.

ghost use Rattle.std.specs.Cow.{IsBorrowedStr, cow_str_bytes};
ghost use Rattle.std.specs.Prelude.{◌≡◌, ◌≤◌, ◌<◌, ◌==◌, ◌++◌, ◌∷◌, [], IfOk, IfSome, IsCharBoundary, IsOk, IsOkAnd, OnErr, OnOk, Some, false, if◌then◌else◌, length, map, option_map, slice_get, string_bytes, true};
ghost use Rattle.std.specs.Set.{unique_keys};
ghost use Rattle.std.specs.Str.{bytes_eq};
ghost use Rattle.std.specs.VecDeque.{deque_capacity, deque_len};
ghost use Rattle.tw_line.specs.HistoryAdditions.{is_line, match_view};
ghost use Rattle.tw_line.specs.NearestMatch.{last_line, nearest_match};
ghost use Rattle.tw_history_parts.specs.HistoryFile.{AddsAll, AddsSome, written_lines};
ghost use Rattle.tw_history_parts.specs.Recent.{gives_recent, lines_of_entries, newest, no_recent_lines, older_lines, with_recent};

use crate::file::{add_lines, written_line};
use std::alloc::{AllocError, Global};
use std::borrow::CowStr;
use std::collections::{HashSet, VecDeque};
use std::marker::Model;
use tw_line::{
    History, HistoryIndex, LentLines, SearchDirection, SearchResult, SearchStyle, nearest_line,
};

/// A history in memory that keeps the newest lines, and no line twice if it is unique: a line that is added again goes
/// to the end then. It lends its lines and copies none of them.
#[derive(Debug, Drop)]
pub struct RecentHistory {
    entries: VecDeque<String>,
    limit: usize,
    is_unique: bool,
    alloc: Global,
}

impl Model for RecentHistory {
    ghost use Rattle.std.specs.Prelude.{◌<◌, ◌≤◌, ◌≡◌, length, map, string_bytes, true};
    ghost use Rattle.tw_history_parts.specs.Recent.{AreUnique, RecentLines};

    ghost Value = { RecentLines };

    ghost view = { λ h. record {
      lines = map string_bytes h.entries.items;
      limit = h.limit;
      is_unique = h.is_unique;
    } };

    ghost invariant = { λ h. (0 < h.limit) × (length h.entries.items ≤ h.limit)
        × (h.is_unique ≡ true → AreUnique (map string_bytes h.entries.items)) };
}

/// Takes the entries away that are this line, if none is to stand twice.
fn make_way(entries: &mut VecDeque<String>, is_unique: bool, line: &str)
    ensures lines { lines_of_entries entries.new.items
        ≡ older_lines is_unique line.now (lines_of_entries entries.old.items) }
    ensures fits { deque_len entries.new ≤ deque_len entries.old }
    ensures capacity { deque_capacity entries.new ≡ deque_capacity entries.old }
{
    if is_unique {
        entries.retain(|older| older.as_str() != line);
    }
}

/// Appends an entry. The first one goes away if there are more than `limit` then.
fn push_recent(
    entries: &mut VecDeque<String>,
    entry: String,
    is_unique: bool,
    limit: usize,
) -> Result<(), AllocError>
    requires fits { length entries.old.items ≤ limit }
    ensures ok { OnOk result (lines_of_entries entries.new.items
        ≡ newest limit (older_lines is_unique (string_bytes entry)
        (lines_of_entries entries.old.items) ++ string_bytes entry ∷ [])) }
    ensures fits { length entries.new.items ≤ limit }
    ensures err { OnErr result (lines_of_entries entries.new.items
        ≡ lines_of_entries entries.old.items) }
{
    entries.reserve(1)?;
    make_way(entries, is_unique, entry.as_str());
    entries.push_back_reserved(entry);
    if entries.len() > limit {
        let _oldest = entries.pop_front();
    }
    Ok(())
}

/// Returns copies of the newest of these lines, each where it comes last, and `limit` at most.
fn newest_copies(
    alloc: Global,
    lines: &[&str],
    limit: usize,
) -> Result<VecDeque<String>, AllocError>
    ensures { IfOk result (λ kept. lines_of_entries kept.items
        ≡ newest limit (unique_keys bytes_eq (map (λ line. line.now) lines.now))) }
{
    let mut kept = VecDeque::new(alloc);
    let mut seen = HashSet::new(alloc);
    let mut at = lines.len();
    while at > 0 {
        at -= 1;
        let line = lines[at];
        if kept.len() < limit && seen.insert(line)? {
            kept.push_front(String::from_str(alloc, line)?)?;
        }
    }
    Ok(kept)
}

impl RecentHistory {
    /// Creates a history of no lines that keeps the newest `limit`, at least one. Takes no memory: each `add` takes it
    /// from `alloc`.
    pub fn new(alloc: Global, limit: usize) -> Self
        ensures { result ≡ no_recent_lines limit false }
    {
        RecentHistory {
            entries: VecDeque::new(alloc),
            limit: limit.max(1),
            is_unique: false,
            alloc,
        }
    }

    /// Creates a history of no lines that keeps the newest `limit`, at least one, and none twice. Takes no memory: each
    /// `add` takes it from `alloc`.
    pub fn unique(alloc: Global, limit: usize) -> Self
        ensures { result ≡ no_recent_lines limit true }
    {
        RecentHistory {
            is_unique: true,
            ..RecentHistory::new(alloc, limit)
        }
    }

    /// Adds lines in their order, as `add` does one after the other, but in time that does not grow with the limit if no
    /// line is to stand twice. If memory is lacking, the first lines may have been added.
    pub fn add_all(&mut self, lines: &[String]) -> Result<(), AllocError>
        ensures added { OnOk result (AddsAll gives_recent (map string_bytes lines.now)
            self.old self.new) }
        ensures refused { OnErr result (AddsSome (λ history. history.lines) gives_recent
            (map string_bytes lines.now) self.old self.new) }
    {
        if !self.is_unique {
            return add_lines(self, lines);
        }
        let entries = self.entries_with(lines)?;
        self.entries = entries;
        Ok(())
    }

    /// Returns the entries once these lines are added, each line where it comes last.
    fn entries_with(&self, lines: &[String]) -> Result<VecDeque<String>, AllocError>
        ensures { IfOk result (λ entries. lines_of_entries entries.items
            ≡ newest self.now.limit (unique_keys bytes_eq
            (self.now.lines ++ map string_bytes lines.now))) }
    {
        let mut all = Vec::new(self.alloc);
        for at in 0..self.entries.len() {
            all.push(self.entries[at].as_str())?;
        }
        for line in lines {
            all.push(line.as_str())?;
        }
        newest_copies(self.alloc, &all, self.limit)
    }

    /// Returns true if there are no lines.
    pub(crate) fn is_empty(&self) -> bool
        ensures { result ≡ (length self.now.lines == 0) }
    {
        self.entries.is_empty()
    }

    /// Returns how many lines are kept at most.
    pub(crate) fn limit(&self) -> usize
        ensures { result ≡ self.now.limit }
    {
        self.limit
    }

    /// Returns the lines as they are written, one after the other.
    pub(crate) fn written(&self) -> Result<Vec<u8>, AllocError>
        ensures { IfOk result (λ bytes. bytes.items ≡ written_lines self.now.lines) }
    {
        let mut bytes = Vec::new(self.alloc);
        for at in 0..self.entries.len() {
            let line = written_line(self.alloc, &self.entries[at])?;
            bytes.extend_from_slice(&line)?;
        }
        Ok(bytes)
    }

    fn ends_with(&self, line: &str) -> bool
        ensures { result ≡ is_line line.now (last_line self.now.lines) }
    {
        self.entries
            .back()
            .is_some_and(|last| last.as_str() == line)
    }
}

impl LentLines for RecentHistory {
    ghost lines = { λ h. h.lines };

    fn line_count(&self) -> usize {
        self.entries.len()
    }

    fn line(&self, at: HistoryIndex) -> &str {
        self.entries[at].as_str()
    }
}

impl History for RecentHistory {
    ghost lines = { λ h. h.lines };

    ghost add_gives = { gives_recent };

    /// Lends the line at `idx`. Takes no memory.
    fn get(&self, _alloc: Global, idx: HistoryIndex) -> Result<Option<CowStr<'_>>, AllocError>
        ensures line { IsOkAnd result (λ line. option_map cow_str_bytes line
            ≡ slice_get self.now.lines idx) }
        ensures borrowed { IfOk result (λ line. IfSome line IsBorrowedStr) }
    {
        let line = self.entries.get(idx);
        Ok(line.map(|line| CowStr::Borrowed(line.as_str())))
    }

    fn last(&self) -> Option<HistoryIndex> {
        self.entries.len().checked_sub(1)
    }

    /// Adds a line at the end, unless it is the last line already. The same line goes away if none is to stand twice,
    /// or else the oldest one if there are too many then. If memory is lacking, the lines stay as they were.
    #[tactic(auto, using(crate::proofs::RecentLemmas::last_line_newest))]
    fn add(&mut self, line: &str) -> Result<(), AllocError>
        ensures last { OnOk result (last_line self.new.lines ≡ Some line.now) }
        ensures refused { OnErr result (self.new ≡ self.old) }
        ensures added { OnOk result (self.new ≡ with_recent self.old line.now) }
        ensures doubled { last_line self.old.lines ≡ Some line.now → IsOk result }
    {
        if self.ends_with(line) {
            return Ok(());
        }
        let entry = String::from_str(self.alloc, line)?;
        push_recent(&mut self.entries, entry, self.is_unique, self.limit)
    }

    /// Lends the nearest match, and reads each line on the side at most once. Takes no memory.
    fn search(
        &self,
        _alloc: Global,
        idx: HistoryIndex,
        style: SearchStyle,
        direction: SearchDirection,
        pattern: &str,
    ) -> Result<Option<SearchResult<'_>>, AllocError>
        ensures found { IsOkAnd result (λ found.
            option_map match_view found ≡ nearest_match self.now.lines idx direction pattern.now) }
        ensures boundary { IfOk result (λ found.
            IfSome found (λ m. IsCharBoundary (cow_str_bytes m.line) m.cursor)) }
        ensures borrowed { IfOk result (λ found. IfSome found (λ m. IsBorrowedStr m.line)) }
    {
        Ok(nearest_line(self, idx, style, direction, pattern))
    }
}
