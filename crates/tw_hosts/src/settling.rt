//! The column of the cursor on a screen whose edge wide characters do not meet.
//!
//! A wide character that does not fit into the last column leaves it empty and begins the next row. The editor finds
//! the cursor's cell by division, which knows nothing of such a hole. Who knows the screen's columns and the prompt
//! counts the holes in.

ghost use Rattle.std.specs.Prelude.{◌≡◌, ◌<◌, ◌≤◌, ◌+◌, ◌-ℤ◌, [], ◌∷◌, chars, length, IfSome, MatchOption, IsCharBoundary, nat_abs, true, false};
ghost use Rattle.tw_surface.specs.declared.measure.Piece.TheVariants.{Wide};
ghost use Rattle.tw_surface.specs.Extents.{place_of, Measures};
ghost use Rattle.tw_surface.specs.Places.{is_in_range, places_after, begins_at};
ghost use Rattle.tw_surface.specs.Positions.{at_least_0};
ghost use Rattle.tw_surface.specs.Width.{char_columns};
ghost use Rattle.tw_input.specs.EventView.{event_view};
ghost use Rattle.tw_line.specs.Cut.{cut_at};
ghost use Rattle.tw_hosts.specs.Settling.{character_pieces, is_parted, pieces_left, settled_pieces, needed_by_text, columns_between, is_ahead, is_measured, is_settled, line_start, place_after_text, settled_column, settled_place, column_on, screen_after, screen_view};

use tw_input::InputEvent;
use tw_surface::{
    Extent, Piece, cluster_width, is_plain_text, measure_text, split_cluster, unicode_column_width,
};
use unicode_width::UnicodeWidthChar;

/// What is known of a screen: its columns, and the prompt before the line. Where either is not what is shown, the
/// cursor of a line with wide characters may stand too far left or right; that of a printable line never does.
#[derive(Debug, Drop)]
pub struct PromptScreen {
    /// The columns, as the terminal tells them.
    pub cols: usize,
    /// The prompt, as it is shown.
    pub prompt: String,
}

impl PromptScreen {
    /// Returns the column of a cursor at the byte offset `cursor`, as `settled_column` does.
    pub fn column(&self, line: &str, cursor: usize) -> usize
        requires { IsCharBoundary line.now cursor }
        ensures { result ≡ column_on (screen_view self.now) (cut_at line.now cursor) }
    {
        settled_column(self.cols, self.prompt.as_str(), line, cursor)
    }

    /// Takes the columns that an event tells. It is for a host's `resolve_action`.
    pub fn resize(&mut self, event: &InputEvent)
        ensures { screen_view self.new
            ≡ screen_after (event_view event.now) (screen_view self.old) }
    {
        if let InputEvent::Resized { cols, .. } = event {
            self.cols = *cols;
        }
    }
}

/// Returns the columns of a character by itself: 0 for a control character.
fn char_columns(c: char) -> usize
    ensures value { result ≡ char_columns c }
{
    c.width().unwrap_or(0)
}

/// Returns true if several characters of a cluster take columns, and together as many as the cluster.
fn is_parted(cluster: &str) -> bool
    ensures { result ≡ is_parted cluster.now }
{
    let width = cluster_width(cluster);
    cluster.chars().all(|c| char_columns(c) != width)
        && cluster
            .chars()
            .fold(0, |sum: usize, c| sum.saturating_add(char_columns(c)))
            == width
}

/// Returns the columns of the first character that takes some, and what follows it, or `None` if none does.
#[tactic(auto, using(crate::proofs::SettlingLemmas::pieces_none))]
fn split_wide(text: &str) -> Option<(usize, &str)>
    ensures pieces { MatchOption result
        (character_pieces (chars text.now) ≡ [])
        (λ (width, rest). character_pieces (chars text.now)
        ≡ Wide width ∷ character_pieces (chars rest.now)) }
    ensures shorter { IfSome result (λ (width, rest). length rest.now < length text.now) }
{
    let mut chars = text.chars();
    while let Some(c) = chars.next() {
        let width = char_columns(c);
        if width > 0 {
            return Some((width, chars.as_str()));
        }
    }
    None
}

/// Returns the first piece of what is left of a parted cluster and of the text after it, and what is left of both
/// then, or `None` if they have no piece.
#[tactic(auto, using(crate::proofs::SettlingLemmas::pieces_none))]
fn split_piece<'text>(
    parted: &'text str,
    text: &'text str,
) -> Option<(Piece, &'text str, &'text str)>
    ensures pieces { MatchOption result
        (pieces_left parted.now text.now ≡ [])
        (λ (piece, left, rest). pieces_left parted.now text.now
        ≡ piece ∷ pieces_left left.now rest.now) }
    ensures shorter { IfSome result (λ (piece, left, rest).
        length left.now + length rest.now < length parted.now + length text.now) }
{
    if let Some((width, left)) = split_wide(parted) {
        return Some((Piece::Wide(width), left, text));
    }
    let (cluster, rest) = split_cluster(text)?;
    if is_parted(cluster) {
        split_piece(cluster, rest)
    } else {
        Some((Piece::of_cluster(cluster), "", rest))
    }
}

/// Returns the extent after a text, or `None` if a place on the way is out of range.
#[tactic(auto, using(crate::proofs::SettlingLemmas::plain_settles, crate::proofs::SettlingLemmas::other_settles))]
fn after_pieces(cols: usize, start: Extent, text: &str) -> Option<Extent>
    requires cols { cols ≤ 65535 }
    requires range { is_in_range (place_of start) ≡ true }
    ensures { Measures start (places_after cols (settled_pieces text.now) (place_of start)) result }
{
    if is_plain_text(text.as_bytes()) {
        return measure_text(cols, start, text);
    }
    let mut extent = start;
    let (mut parted, mut rest) = ("", text);
    while let Some((piece, left, more)) = split_piece(parted, rest) {
        extent = extent.advance(cols, piece)?;
        parted = left;
        rest = more;
    }
    Some(extent)
}

/// Returns the columns that the beginning of a text needs: those of its first piece, and 1 at least for the cursor
/// itself.
#[tactic(auto, using(crate::proofs::SettlingLemmas::plain_needs, crate::proofs::SettlingLemmas::other_settles), unfolding(crate::specs::Settling::needed_by_text))]
fn needed_by_text(text: &str) -> usize
    ensures { result ≡ needed_by_text text.now }
{
    if is_plain_text(text.as_bytes()) {
        return 1;
    }
    match split_piece("", text) {
        Some((Piece::Wide(width), _, _)) => width.max(1),
        _ => 1,
    }
}

/// Returns the cell in which something of `width` columns begins after a place.
fn begins_at(cols: usize, width: usize, end: Extent) -> (usize, isize)
    requires cols { cols ≤ 65535 }
    requires range { is_in_range (place_of end) ≡ true }
    ensures { record { x = result.0; y = result.1 } ≡ begins_at cols width (place_of end) }
{
    if end.x.saturating_add(width) <= cols {
        (end.x, end.y)
    } else {
        (0, end.y + 1)
    }
}

/// Returns how many rows the row `to` is below the row `from`.
#[tactic(auto, using(std::proofs::lemmas::Int::ints, std::proofs::lemmas::Int::clamps))]
fn rows_down(from: isize, to: isize) -> usize
    requires from { nat_abs from ≤ 2147483647 }
    requires to { nat_abs to ≤ 2147483648 }
    ensures value { result ≡ at_least_0 (to -ℤ from) }
    ensures bound { result ≤ 4294967295 }
{
    (to - from).max(0) as usize
}

/// Returns the columns from a place to a cell by division, or `None` if the cell is before it.
fn columns_between(cols: usize, start: Extent, cell: (usize, isize)) -> Option<usize>
    requires cols { cols ≤ 65535 }
    requires range { is_in_range (place_of start) ≡ true }
    requires col { cell.0 ≤ 65535 }
    requires row { nat_abs cell.1 ≤ 2147483648 }
    ensures { MatchOption result
        (is_ahead cols (place_of start) (record { x = cell.0; y = cell.1 }) ≡ false)
        (λ columns. (is_ahead cols (place_of start) (record { x = cell.0; y = cell.1 }) ≡ true)
        × (columns ≡ columns_between cols (place_of start) (record { x = cell.0; y = cell.1 }))) }
{
    let reach = rows_down(start.y, cell.1) * cols + cell.0;
    reach.checked_sub(start.x)
}

/// Returns where the line begins and where the text before its cursor ends, or `None` if a place on the way is out of
/// range or no screen has `cols` columns.
#[tactic(auto, using(crate::proofs::SettlingLemmas::end_reached))]
fn measured(cols: usize, prompt: &str, before: &str) -> Option<(Extent, Extent)>
    ensures { MatchOption result
        (is_measured cols prompt.now before.now ≡ false)
        (λ ends. (is_measured cols prompt.now before.now ≡ true)
        × (place_of ends.0 ≡ line_start cols prompt.now)
        × (place_of ends.1 ≡ place_after_text cols before.now (line_start cols prompt.now))
        × (is_in_range (place_of ends.0) ≡ true) × (is_in_range (place_of ends.1) ≡ true)) }
{
    if cols == 0 || cols > 65_535 {
        return None;
    }
    let start = measure_text(cols, Extent::start(), prompt)?;
    let end = after_pieces(cols, start, before)?;
    Some((start, end))
}

/// Returns the column that leads to the cell of the cursor, or `None` if no column does.
fn settled(cols: usize, prompt: &str, line: &str, cursor: usize) -> Option<usize>
    requires { IsCharBoundary line.now cursor }
    ensures { MatchOption result
        (is_settled cols prompt.now (cut_at line.now cursor) ≡ false)
        (λ column. (is_settled cols prompt.now (cut_at line.now cursor) ≡ true)
        × (column ≡ columns_between cols (line_start cols prompt.now)
        (settled_place cols prompt.now (cut_at line.now cursor)))) }
{
    let (before, rest) = line.split_at(cursor);
    let (start, end) = measured(cols, prompt, before)?;
    if start.x > cols {
        return None;
    }
    columns_between(cols, start, begins_at(cols, needed_by_text(rest), end))
}

/// Returns the column to answer for a cursor at the byte offset `cursor`, after this prompt on a screen of `cols`
/// columns: the one from which the editor finds the cell in which the text after the cursor begins. If no column leads
/// there, as after a carriage return, it is the width of the text before the cursor.
pub fn settled_column(cols: usize, prompt: &str, line: &str, cursor: usize) -> usize
    requires { IsCharBoundary line.now cursor }
    ensures { result ≡ settled_column cols prompt.now (cut_at line.now cursor) }
{
    settled(cols, prompt, line, cursor).unwrap_or_else(|| unicode_column_width(&line[..cursor]))
}
