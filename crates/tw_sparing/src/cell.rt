//! What a cell of a screen holds.

ghost use Rattle.std.specs.Prelude.{◌≡◌, true};
ghost use Rattle.tw_sparing.specs.Differences.{is_same_cell};
ghost use Rattle.tw_sparing.specs.SingleCharacters.{character_number, is_single, IsSingle};
ghost use Rattle.tw_sparing.specs.StyledScreens.{paper_cell, styled_cell};

use tw_surface::{CellAttributes, ColorAttribute};
use unicode_width::UnicodeWidthChar;

/// The last character before those whose columns a table tells.
const LAST_ALONE: char = '\u{A0}';

/// A character and the attributes under which it is shown.
#[derive(Debug, Copy, Clone, PartialEq, Eq)]
pub struct ScreenCell {
    pub character: char,
    pub attributes: CellAttributes,
}

impl ScreenCell {
    /// Returns what a clearing to a colour leaves: a blank on it, its other attributes the default ones.
    pub fn blank(color: ColorAttribute) -> Self
        ensures { result ≡ paper_cell color }
    {
        ScreenCell {
            character: ' ',
            attributes: CellAttributes {
                background: color,
                ..CellAttributes::default()
            },
        }
    }
}

/// Returns true if two cells show the same.
#[tactic(auto, using(crate::proofs::SingleCharacters::same_number))]
pub fn is_same(a: &ScreenCell, b: &ScreenCell) -> bool
    ensures { result ≡ is_same_cell (styled_cell a.now) (styled_cell b.now) }
{
    a == b
}

/// Returns true if a character takes one column: a printable one of ASCII, or one above U+00A0.
pub fn is_single(character: char) -> bool
    ensures value { result ≡ is_single character }
    ensures single { result ≡ true → IsSingle (character_number character) }
{
    (' '..='~').contains(&character)
        || (character > LAST_ALONE && character.width().unwrap_or(0) == 1)
}
