//! A history of lines, and the search in it.

ghost use Rattle.std.specs.Cow.{IsBorrowedStr, cow_str_bytes};
ghost use Rattle.std.specs.List.{concat};
ghost use Rattle.std.specs.Prelude.{◌≡◌, ◌<◌, ◌++◌, ◌∷◌, [], ℕ, All, IfOk, IfSome, IsCharBoundary, IsOk, IsOkAnd, List, None, OnErr, OnOk, Option, Some, if◌then◌else◌, is_ok, length, option_map, slice_get, slice_index};
ghost use Rattle.tw_line.specs.HistoryAdditions.{is_line, match_view, with_line};
ghost use Rattle.tw_line.specs.Joined.{AreEnds, ends_from, lines_from};
ghost use Rattle.tw_line.specs.NearestMatch.{last_index, last_line, line_at, nearest_match, next_index};
ghost use Rattle.tw_line.specs.Patterns.{first};

mod nearest;

pub use nearest::{LentLines, nearest_line};
use std::alloc::{AllocError, Global};
use std::borrow::CowStr;
use std::marker::Model;

/// The index of a line in a history. The first line has index 0.
pub type HistoryIndex = usize;

/// How a pattern is sought in a line.
#[derive(Clone, Copy, Debug, PartialEq, Eq)]
pub enum SearchStyle {
    /// The line contains the pattern, character by character.
    Substring,
}

impl SearchStyle {
    /// Returns the byte offset in `line` at which `pattern` stands first, or `None` if it stands nowhere. An empty
    /// pattern stands at offset 0. Takes no memory.
    #[tactic(auto, using(crate::proofs::SearchLemmas::find_gives_first))]
    pub fn match_against(&self, pattern: &str, line: &str) -> Option<usize>
        ensures value { result ≡ first pattern.now line.now }
        ensures boundary { IfSome result (λ at. IsCharBoundary line.now at) }
    {
        match self {
            SearchStyle::Substring => line.find(pattern),
        }
    }
}

/// Where a search goes from an index.
#[derive(Clone, Copy, Debug, PartialEq, Eq)]
pub enum SearchDirection {
    /// To smaller indices, which are older lines.
    Backwards,
    /// To greater indices, which are newer lines.
    Forwards,
}

impl SearchDirection {
    /// Returns the index beside `idx` in this direction, or `None` if there is none: before 0 and past `usize::MAX`.
    /// Whether a line has that index is not asked.
    pub fn next(self, idx: HistoryIndex) -> Option<HistoryIndex>
        ensures { result ≡ next_index self idx }
    {
        match self {
            SearchDirection::Backwards => idx.checked_sub(1),
            SearchDirection::Forwards => idx.checked_add(1),
        }
    }
}

/// A line that a search found. Two of them are equal where their texts, indices and offsets are, whether
/// a text is borrowed or owned.
#[derive(Debug, PartialEq, Eq, Drop)]
pub struct SearchResult<'a> {
    /// The whole line.
    pub line: CowStr<'a>,
    /// The index of the line in its history.
    pub idx: HistoryIndex,
    /// The byte offset in the line at which the pattern stands first. It is a character boundary.
    pub cursor: usize,
}

/// A list of lines, the oldest first, that lines are added to and looked up in. Memory is all that `get`,
/// `add` and `search` can lack, and the lines then stay as they were.
pub trait History {
    ghost lines: { Self → List (List ℕ) };

    ghost add_gives: { Self → List ℕ → Self → Type 0 } = { λ history line grown. Unit {0} };

    /// Returns the line at `idx`, or `None` if no line has that index. A history that makes its answer may lack memory
    /// for it.
    fn get(&self, alloc: Global, idx: HistoryIndex) -> Result<Option<CowStr<'_>>, AllocError>
        ensures { IfOk result (λ line. option_map cow_str_bytes line
            ≡ slice_get (lines self.now) idx) };

    /// Returns the index of the last line, or `None` if there are no lines. Takes no memory.
    fn last(&self) -> Option<HistoryIndex>
        ensures { result ≡ last_index (lines self.now) };

    /// Adds a line, which is then the last one. Which lines come before it is up to the history. Where
    /// memory is lacking, the lines stay as they were.
    fn add(&mut self, line: &str) -> Result<(), AllocError>
        ensures last { OnOk result (last_line (lines self.new) ≡ Some line.now) }
        ensures refused { OnErr result (lines self.new ≡ lines self.old) }
        ensures added { OnOk result (add_gives self.old line.now self.new) };

    /// Returns the nearest line from `idx` on, the one at `idx` included, that contains the pattern, with the byte
    /// offset at which the pattern stands first in it. `None` if no line on that side contains the pattern, or no line
    /// has the index `idx`. A history that makes its answer may lack memory for it.
    fn search(
        &self,
        alloc: Global,
        idx: HistoryIndex,
        style: SearchStyle,
        direction: SearchDirection,
        pattern: &str,
    ) -> Result<Option<SearchResult<'_>>, AllocError>
        ensures found { IfOk result (λ found.
            option_map match_view found
            ≡ nearest_match (lines self.now) idx direction pattern.now) }
        ensures boundary { IfOk result (λ found.
            IfSome found (λ m. IsCharBoundary (cow_str_bytes m.line) m.cursor)) };
}

/// A history in memory, which keeps every line. The lines stand one after the other in one text. It lends
/// them and copies none.
#[derive(Debug, Drop)]
pub struct BasicHistory {
    text: String,
    ends: Vec<usize>,
}

impl Model for BasicHistory {
    ghost use Rattle.std.specs.Prelude.{List, ℕ, string_bytes};
    ghost use Rattle.tw_line.specs.Joined.{AreEnds, lines_from};

    ghost Value = { List (List ℕ) };

    ghost view = { λ h. lines_from (string_bytes h.text) 0 h.ends.items };

    ghost invariant = { λ h. AreEnds (string_bytes h.text) 0 h.ends.items };
}

impl BasicHistory {
    /// Creates the history of no lines. Takes no memory: each `add` takes it from `alloc`.
    pub fn new(alloc: Global) -> Self
        ensures { result ≡ [] }
    {
        BasicHistory {
            text: String::new(alloc),
            ends: Vec::new(alloc),
        }
    }

    /// Returns all lines one after the other as one text, and the end offset of each line in it. Takes no memory.
    #[tactic(auto, using(crate::proofs::JoinedLemmas::concat_lines_from, crate::proofs::JoinedLemmas::ends_from_lines, crate::proofs::JoinedLemmas::boundaries))]
    pub fn joined(&self) -> (&str, &[usize])
        ensures text { result.0.now ≡ concat self.now }
        ensures ends { result.1.now ≡ ends_from 0 self.now }
        ensures boundaries { All (IsCharBoundary result.0.now) result.1.now }
    {
        (self.text.as_str(), self.ends.as_slice())
    }

    fn ends_with(&self, line: &str) -> bool
        ensures { result ≡ is_line line.now (last_line self.now) }
    {
        match self.last() {
            Some(last) => self.line(last) == line,
            None => false,
        }
    }

    fn append(&mut self, line: &str) -> Result<(), AllocError>
        ensures { self.new ≡ (if is_ok result then self.old ++ line.now ∷ [] else self.old) }
    {
        self.text.reserve(line.len())?;
        self.ends.reserve(1)?;
        let Ok(()) = self.text.push_str(line) else {
            unreachable!()
        };
        let Ok(()) = self.ends.push(self.text.len()) else {
            unreachable!()
        };
        Ok(())
    }
}

/// Returns the offset at which the line at an index starts, by the end offsets of the lines.
fn start_of(ends: &[usize], at: HistoryIndex) -> usize
    requires { at < length ends.now }
    ensures { result ≡ slice_index (0 ∷ ends.now) at }
{
    match at.checked_sub(1) {
        Some(before) => ends[before],
        None => 0,
    }
}

/// Returns the line at an index, by the text that the lines make up and the end offset of each.
fn line_of<'a>(text: &'a str, ends: &[usize], at: HistoryIndex) -> &'a str
    requires made_up { AreEnds text.now 0 ends.now }
    requires inside { at < length ends.now }
    ensures { result.now ≡ line_at (lines_from text.now 0 ends.now) at }
{
    let start = start_of(ends, at);
    &text[start..ends[at]]
}

impl LentLines for BasicHistory {
    ghost lines = { λ h. h };

    fn line_count(&self) -> usize {
        self.ends.len()
    }

    #[tactic(auto, using(crate::proofs::JoinedLemmas::inside_ends))]
    fn line(&self, at: HistoryIndex) -> &str {
        line_of(self.text.as_str(), self.ends.as_slice(), at)
    }
}

impl History for BasicHistory {
    ghost lines = { λ h. h };

    ghost add_gives = { λ history line grown. grown ≡ with_line history line };

    /// Returns the line at `idx`, which is lent and not copied. Takes no memory.
    fn get(&self, _alloc: Global, idx: HistoryIndex) -> Result<Option<CowStr<'_>>, AllocError>
        ensures line { IsOkAnd result (λ line. option_map cow_str_bytes line
            ≡ slice_get self.now idx) }
        ensures borrowed { IfOk result (λ line. IfSome line IsBorrowedStr) }
    {
        if idx >= self.line_count() {
            return Ok(None);
        }
        Ok(Some(CowStr::Borrowed(self.line(idx))))
    }

    fn last(&self) -> Option<HistoryIndex> {
        self.line_count().checked_sub(1)
    }

    /// Adds a line at the end, unless it is the last line already. Takes memory for a new line only. Where
    /// that is lacking, the lines stay as they were.
    fn add(&mut self, line: &str) -> Result<(), AllocError>
        ensures last { OnOk result (last_line self.new ≡ Some line.now) }
        ensures refused { OnErr result (self.new ≡ self.old) }
        ensures added { OnOk result (self.new ≡ with_line self.old line.now) }
        ensures doubled { last_line self.old ≡ Some line.now → IsOk result }
    {
        if self.ends_with(line) {
            return Ok(());
        }
        self.append(line)
    }

    /// Returns the nearest match. Each line on the side is read once at most, and none is copied. Takes no memory.
    fn search(
        &self,
        _alloc: Global,
        idx: HistoryIndex,
        style: SearchStyle,
        direction: SearchDirection,
        pattern: &str,
    ) -> Result<Option<SearchResult<'_>>, AllocError>
        ensures found { IsOkAnd result (λ found.
            option_map match_view found ≡ nearest_match self.now idx direction pattern.now) }
        ensures boundary { IfOk result (λ found.
            IfSome found (λ m. IsCharBoundary (cow_str_bytes m.line) m.cursor)) }
        ensures borrowed { IfOk result (λ found. IfSome found (λ m. IsBorrowedStr m.line)) }
    {
        Ok(nearest_line(self, idx, style, direction, pattern))
    }
}
