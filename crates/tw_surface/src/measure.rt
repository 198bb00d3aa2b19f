//! How texts move the place of a sequence.

ghost use Rattle.std.specs.Prelude.{◌≡◌, ◌<◌, ◌≤◌, [], ◌∷◌, map, replicate, true, MatchOption};
ghost use Rattle.unicode_segmentation.specs.Grapheme.{graphemes};
ghost use Rattle.tw_surface.specs.declared.measure.Piece.TheVariants.{Wide};
ghost use Rattle.tw_surface.specs.Places.{BeginsWithPiece, plain_piece, cluster_piece, pieces, next_place, places_after, is_in_range};
ghost use Rattle.tw_surface.specs.Extents.{place_of, Measures, start_extent};

use crate::cell::cluster_width;
use crate::characters::{is_plain_text, is_printable_text};
use crate::clusters::{split_cluster, split_settled};
use crate::size::MAX_REACH;

/// A piece of a text, by what it does to the cursor.
#[derive(Debug, Copy, Clone, PartialEq, Eq)]
pub enum Piece {
    /// Carriage return: to column 0.
    Cr,
    /// Line feed: to the next row.
    Lf,
    /// Both in one grapheme cluster.
    CrLf,
    /// A character or a cluster of this many columns.
    Wide(usize),
}

/// The place that a sequence has reached, and its least and its greatest row so far.
#[derive(Debug, Copy, Clone, PartialEq, Eq)]
pub struct Extent {
    /// The column, from 0; the number of columns where the wrap is pending.
    pub x: usize,
    /// The row, counted from the row in which the sequence begins.
    pub y: isize,
    /// The least row so far.
    pub least: isize,
    /// The greatest row so far.
    pub greatest: isize,
}

impl Extent {
    /// Returns the place (0, 0).
    pub fn start() -> Extent
        ensures { result ≡ start_extent }
    {
        Extent {
            x: 0,
            y: 0,
            least: 0,
            greatest: 0,
        }
    }

    /// Returns the extent with one more place, or `None` if that place is out of range.
    pub fn reach(self, x: usize, y: isize) -> Option<Extent>
        ensures { Measures self (record { x = x; y = y } ∷ []) result }
    {
        if x > MAX_REACH as usize || y > MAX_REACH || y < -MAX_REACH {
            return None;
        }
        Some(Extent {
            x,
            y,
            least: self.least.min(y),
            greatest: self.greatest.max(y),
        })
    }

    /// Returns the extent after a piece, or `None` if its place is out of range.
    pub fn advance(self, cols: usize, piece: Piece) -> Option<Extent>
        requires cols { cols ≤ 65535 }
        requires range { is_in_range (place_of self) ≡ true }
        ensures { Measures self (next_place cols piece (place_of self) ∷ []) result }
    {
        match piece {
            Piece::Cr => self.reach(0, self.y),
            Piece::Lf => self.reach(self.x, self.y + 1),
            Piece::CrLf => self.reach(0, self.y + 1),
            Piece::Wide(width) => {
                let end = self.x.saturating_add(width);
                if end <= cols {
                    self.reach(end, self.y)
                } else {
                    self.reach(width, self.y + 1)
                }
            }
        }
    }
}

impl Piece {
    /// Returns a character of a plain text.
    fn of_byte(byte: u8) -> Piece
        ensures { result ≡ plain_piece byte }
    {
        match byte {
            b'\r' => Piece::Cr,
            b'\n' => Piece::Lf,
            _ => Piece::Wide(1),
        }
    }

    /// Returns a grapheme cluster of any other text.
    pub fn of_cluster(cluster: &str) -> Piece
        ensures { result ≡ cluster_piece cluster.now }
    {
        match cluster.as_bytes() {
            [b'\r'] => Piece::Cr,
            [b'\n'] => Piece::Lf,
            [b'\r', b'\n'] => Piece::CrLf,
            _ => Piece::Wide(cluster_width(cluster)),
        }
    }
}

/// Measures `count` characters of one column. Those that fit in a row are one step.
fn measure_printable(cols: usize, start: Extent, count: usize) -> Option<Extent>
    requires cols { cols ≤ 65535 }
    requires range { is_in_range (place_of start) ≡ true }
    ensures { Measures start (places_after cols (replicate count (Wide 1))
        (place_of start)) result }
{
    let mut extent = start;
    let mut left = count;
    while left > 0 {
        extent = extent.advance(cols, Piece::Wide(1))?;
        let more = cols.saturating_sub(extent.x).min(left - 1);
        extent.x += more;
        left -= 1 + more;
    }
    Some(extent)
}

fn measure_plain(cols: usize, start: Extent, text: &[u8]) -> Option<Extent>
    requires cols { cols ≤ 65535 }
    requires range { is_in_range (place_of start) ≡ true }
    ensures { Measures start (places_after cols (map plain_piece text.now)
        (place_of start)) result }
{
    let mut extent = start;
    for byte in text {
        extent = extent.advance(cols, Piece::of_byte(*byte))?;
    }
    Some(extent)
}

/// Returns the piece of the first cluster of a text and what follows it, or `None` if the text is empty.
#[inline]
fn split_piece(text: &str) -> Option<(Piece, &str)>
    ensures { MatchOption result
        (graphemes true text.now ≡ [])
        (λ (piece, rest). BeginsWithPiece text.now piece rest.now) }
{
    match split_settled(text) {
        Some((columns, rest)) => Some((Piece::Wide(columns), rest)),
        None => split_ruled_piece(text),
    }
}

/// Returns the same of any other text. It is a function of its own, so that the one above stays short.
#[inline(never)]
fn split_ruled_piece(text: &str) -> Option<(Piece, &str)>
    ensures { MatchOption result
        (graphemes true text.now ≡ [])
        (λ (piece, rest). BeginsWithPiece text.now piece rest.now) }
{
    let (cluster, rest) = split_cluster(text)?;
    Some((Piece::of_cluster(cluster), rest))
}

fn measure_clusters(cols: usize, start: Extent, text: &str) -> Option<Extent>
    requires cols { cols ≤ 65535 }
    requires range { is_in_range (place_of start) ≡ true }
    ensures { Measures start (places_after cols (map cluster_piece (graphemes true text.now))
        (place_of start)) result }
{
    let mut extent = start;
    let mut rest = text;
    while let Some((piece, more)) = split_piece(rest) {
        extent = extent.advance(cols, piece)?;
        rest = more;
    }
    Some(extent)
}

/// Returns the extent after a text on a screen of `cols` columns, or `None` if a place on the way is out of range.
#[tactic(auto, using(crate::proofs::RowLemmas::printable_pieces), unfolding(crate::specs::Places::pieces))]
pub fn measure_text(cols: usize, start: Extent, text: &str) -> Option<Extent>
    requires cols { cols ≤ 65535 }
    requires range { is_in_range (place_of start) ≡ true }
    ensures { Measures start (places_after cols (pieces text.now) (place_of start)) result }
{
    if is_printable_text(text.as_bytes()) {
        measure_printable(cols, start, text.len())
    } else if is_plain_text(text.as_bytes()) {
        measure_plain(cols, start, text.as_bytes())
    } else {
        measure_clusters(cols, start, text)
    }
}
