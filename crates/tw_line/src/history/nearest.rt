//! The search for the nearest line, over any lines that can be lent.

ghost use Rattle.std.specs.Cow.{IsBorrowedStr, cow_str_bytes};
ghost use Rattle.std.specs.Prelude.{◌≡◌, ◌<◌, ℕ, IfSome, IsCharBoundary, List, MatchOption, false, length, option_map};
ghost use Rattle.tw_line.specs.HistoryAdditions.{match_view, IsMatchAt};
ghost use Rattle.tw_line.specs.NearestMatch.{line_at, matches, nearest_match};

use crate::history::{HistoryIndex, SearchDirection, SearchResult, SearchStyle};
use std::borrow::CowStr;

/// Lines that are lent by their indices, the first one having index 0.
pub trait LentLines {
    ghost lines: { Self → List (List ℕ) };

    /// Returns how many lines there are. Takes no memory.
    fn line_count(&self) -> usize
        ensures { result ≡ length (lines self.now) };

    /// Returns the line at an index that a line has. Takes no memory.
    fn line(&self, at: HistoryIndex) -> &str
        requires { at < length (lines self.now) }
        ensures { result.now ≡ line_at (lines self.now) at };
}

/// Returns the nearest line from `idx` on, as `History::search` returns it. Each line on the side is read once at most,
/// and none is copied. Takes no memory.
pub fn nearest_line<'a, L: LentLines>(
    lines: &'a L,
    idx: HistoryIndex,
    style: SearchStyle,
    direction: SearchDirection,
    pattern: &str,
) -> Option<SearchResult<'a>>
    ensures found { option_map match_view result
        ≡ nearest_match (L.lines lines.now) idx direction pattern.now }
    ensures boundary { IfSome result (λ m. IsCharBoundary (cow_str_bytes m.line) m.cursor) }
    ensures borrowed { IfSome result (λ m. IsBorrowedStr m.line) }
{
    if idx >= lines.line_count() {
        return None;
    }
    match direction {
        SearchDirection::Backwards => search_backwards(lines, idx, style, pattern),
        SearchDirection::Forwards => search_forwards(lines, idx, style, pattern),
    }
}

fn search_backwards<'a, L: LentLines>(
    lines: &'a L,
    idx: HistoryIndex,
    style: SearchStyle,
    pattern: &str,
) -> Option<SearchResult<'a>>
    requires { idx < length (L.lines lines.now) }
    ensures found { option_map match_view result
        ≡ nearest_match (L.lines lines.now) idx SearchDirection.Backwards pattern.now }
    ensures boundary { IfSome result (λ m. IsCharBoundary (cow_str_bytes m.line) m.cursor) }
    ensures borrowed { IfSome result (λ m. IsBorrowedStr m.line) }
{
    for at in (0..=idx).rev() {
        if let Some(found) = search_line(lines, at, style, pattern) {
            return Some(found);
        }
    }
    None
}

fn search_forwards<'a, L: LentLines>(
    lines: &'a L,
    idx: HistoryIndex,
    style: SearchStyle,
    pattern: &str,
) -> Option<SearchResult<'a>>
    requires { idx < length (L.lines lines.now) }
    ensures found { option_map match_view result
        ≡ nearest_match (L.lines lines.now) idx SearchDirection.Forwards pattern.now }
    ensures boundary { IfSome result (λ m. IsCharBoundary (cow_str_bytes m.line) m.cursor) }
    ensures borrowed { IfSome result (λ m. IsBorrowedStr m.line) }
{
    for at in idx..lines.line_count() {
        if let Some(found) = search_line(lines, at, style, pattern) {
            return Some(found);
        }
    }
    None
}

fn search_line<'a, L: LentLines>(
    lines: &'a L,
    at: HistoryIndex,
    style: SearchStyle,
    pattern: &str,
) -> Option<SearchResult<'a>>
    requires { at < length (L.lines lines.now) }
    ensures found { MatchOption result (matches (L.lines lines.now) pattern.now at ≡ false)
        (IsMatchAt (L.lines lines.now) pattern.now at) }
    ensures boundary { IfSome result (λ m. IsCharBoundary (cow_str_bytes m.line) m.cursor) }
    ensures borrowed { IfSome result (λ m. IsBorrowedStr m.line) }
{
    let line = lines.line(at);
    let cursor = style.match_against(pattern, line)?;
    Some(SearchResult {
        line: CowStr::Borrowed(line),
        idx: at,
        cursor,
    })
}
