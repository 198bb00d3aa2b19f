//! The attributes of a cell, and the columns that a text takes.

ghost use Rattle.std.specs.Prelude.{◌≡◌, ◌+◌, ◌*◌, ◌<◌, ◌≤◌, [], length, true, MatchOption};
ghost use Rattle.std.specs.List.{sum_by};
ghost use Rattle.unicode_segmentation.specs.Grapheme.{graphemes};
ghost use Rattle.tw_surface.specs.Attributes.{with_attribute};
ghost use Rattle.tw_surface.specs.Places.{BeginsWithColumns};
ghost use Rattle.tw_surface.specs.Width.{cluster_width, column_width};

use crate::characters::is_printable_text;
use crate::clusters::{lone_len, lone_width, split_cluster, split_settled};
use crate::color::ColorAttribute;
use unicode_width::UnicodeWidthStr;

/// How strong a text is.
#[derive(Debug, Copy, Clone, PartialEq, Eq)]
pub enum Intensity {
    Normal,
    Bold,
    Half,
}

impl Default for Intensity {
    ghost use Rattle.std.specs.Prelude.{◌≡◌};
    ghost use Rattle.tw_surface.specs.Defaults.{default_attributes};

    ghost is_default = { λ intensity. intensity ≡ default_attributes.intensity };

    fn default() -> Self {
        Intensity::Normal
    }
}

/// The line under a text.
#[derive(Debug, Copy, Clone, PartialEq, Eq)]
pub enum Underline {
    None,
    Single,
    Double,
    Curly,
    Dotted,
    Dashed,
}

impl Default for Underline {
    ghost use Rattle.std.specs.Prelude.{◌≡◌};
    ghost use Rattle.tw_surface.specs.Defaults.{default_attributes};

    ghost is_default = { λ underline. underline ≡ default_attributes.underline };

    fn default() -> Self {
        Underline::None
    }
}

/// How a text blinks.
#[derive(Debug, Copy, Clone, PartialEq, Eq)]
pub enum Blink {
    None,
    Slow,
    Rapid,
}

impl Default for Blink {
    ghost use Rattle.std.specs.Prelude.{◌≡◌};
    ghost use Rattle.tw_surface.specs.Defaults.{default_attributes};

    ghost is_default = { λ blink. blink ≡ default_attributes.blink };

    fn default() -> Self {
        Blink::None
    }
}

/// All attributes of a cell.
#[derive(Debug, Copy, Clone, PartialEq, Eq)]
pub struct CellAttributes {
    pub intensity: Intensity,
    pub underline: Underline,
    pub blink: Blink,
    pub italic: bool,
    pub reverse: bool,
    pub strikethrough: bool,
    pub invisible: bool,
    pub foreground: ColorAttribute,
    pub background: ColorAttribute,
}

impl CellAttributes {
    /// Sets one attribute, and leaves the others as they are.
    pub fn apply_change(&mut self, change: &AttributeChange)
        ensures { self.new ≡ with_attribute change.now self.old }
    {
        match *change {
            AttributeChange::Intensity(to) => self.intensity = to,
            AttributeChange::Underline(to) => self.underline = to,
            AttributeChange::Italic(to) => self.italic = to,
            AttributeChange::Blink(to) => self.blink = to,
            AttributeChange::Reverse(to) => self.reverse = to,
            AttributeChange::StrikeThrough(to) => self.strikethrough = to,
            AttributeChange::Invisible(to) => self.invisible = to,
            AttributeChange::Foreground(to) => self.foreground = to,
            AttributeChange::Background(to) => self.background = to,
        }
    }
}

impl Default for CellAttributes {
    ghost use Rattle.std.specs.Prelude.{◌≡◌};
    ghost use Rattle.tw_surface.specs.Defaults.{default_attributes};

    ghost is_default = { λ attributes. attributes ≡ default_attributes };

    fn default() -> Self {
        CellAttributes {
            intensity: Intensity::Normal,
            underline: Underline::None,
            blink: Blink::None,
            italic: false,
            reverse: false,
            strikethrough: false,
            invisible: false,
            foreground: ColorAttribute::Default,
            background: ColorAttribute::Default,
        }
    }
}

/// One attribute with its new value.
#[derive(Debug, Copy, Clone, PartialEq, Eq)]
pub enum AttributeChange {
    Intensity(Intensity),
    Underline(Underline),
    Italic(bool),
    Blink(Blink),
    Reverse(bool),
    StrikeThrough(bool),
    Invisible(bool),
    Foreground(ColorAttribute),
    Background(ColorAttribute),
}

/// Returns the columns that a text takes: its characters where all are printable ASCII, else the widths of its extended
/// grapheme clusters. Takes no memory.
#[tactic(auto, unfolding(crate::specs::Width::column_width))]
pub fn unicode_column_width(s: &str) -> usize
    ensures value { result ≡ column_width s.now }
    ensures bound { result ≤ 2 * length s.now }
{
    if is_printable_text(s.as_bytes()) {
        s.len()
    } else {
        clusters_width(s)
    }
}

/// Returns the columns of a grapheme cluster. A single character whose first byte tells its width, as most
/// clusters are, needs no table.
#[tactic(auto, using(crate::proofs::LoneWidths::byte_width))]
#[inline]
pub fn cluster_width(cluster: &str) -> usize
    ensures value { result ≡ cluster_width cluster.now }
    ensures bound { result ≤ 2 * length cluster.now }
{
    let bytes = cluster.as_bytes();
    match bytes.first() {
        Some(lead) if lone_len(*lead) == bytes.len() => lone_width(bytes.len()),
        _ => cluster.width(),
    }
}

/// Returns the columns of the first cluster of a text and what follows it, or `None` if the text is empty.
#[inline]
fn split_columns(text: &str) -> Option<(usize, &str)>
    ensures { MatchOption result
        (graphemes true text.now ≡ [])
        (λ (columns, rest). BeginsWithColumns text.now columns rest.now) }
{
    match split_settled(text) {
        Some(split) => Some(split),
        None => split_ruled_columns(text),
    }
}

/// Returns the same of any other text. It is a function of its own, so that the one above stays short.
#[inline(never)]
fn split_ruled_columns(text: &str) -> Option<(usize, &str)>
    ensures { MatchOption result
        (graphemes true text.now ≡ [])
        (λ (columns, rest). BeginsWithColumns text.now columns rest.now) }
{
    let (cluster, rest) = split_cluster(text)?;
    Some((cluster_width(cluster), rest))
}

fn clusters_width(text: &str) -> usize
    ensures value { result ≡ sum_by cluster_width (graphemes true text.now) }
    ensures bound { result ≤ 2 * length text.now }
{
    let mut total: usize = 0;
    let mut rest = text;
    while let Some((columns, more)) = split_columns(rest) {
        total += columns;
        rest = more;
    }
    total
}
