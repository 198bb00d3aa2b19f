//! What a cell of a terminal holds.

ghost use Rattle.std.specs.Prelude.{◌≡◌, ◌<◌, ◌≤◌, ◌^◌, None, SomeIff, IfSome};
ghost use Rattle.laws_screens.specs.StyledCells.{number_from, cluster_number, styled};
ghost use Rattle.ecma_terminal.specs.Cells.{cleared_cell, shown_cell};

use tw_surface::{CellAttributes, ColorAttribute};

/// A character with its marks, and the attributes under which they are shown.
#[derive(Debug, Copy, Clone, PartialEq, Eq)]
pub struct TerminalCell {
    /// The bytes of the character and its marks as one number, each byte one of its digits; 0 in a further cell of a
    /// wide character.
    pub number: u128,
    /// The attributes.
    pub attributes: CellAttributes,
}

/// Returns the number that more bytes make of one, or `None` if it has more than 16 bytes.
#[tactic(auto, using(crate::proofs::CellLemmas::number_more, crate::proofs::CellLemmas::number_most))]
fn number_from(number: u128, bytes: &[u8]) -> Option<u128>
    ensures { SomeIff result (number_from number bytes.now < 2 ^ 128)
        (number_from number bytes.now) }
{
    let mut sum = number;
    for byte in bytes {
        sum = sum.checked_mul(256)?.checked_add(u128::from(*byte))?;
    }
    Some(sum)
}

impl TerminalCell {
    /// Returns what a clearing to a colour leaves: a blank on it, its other attributes the default ones.
    pub fn blank(color: ColorAttribute) -> Self
        ensures { result ≡ cleared_cell color }
    {
        TerminalCell {
            number: 0x20,
            attributes: CellAttributes {
                background: color,
                ..CellAttributes::default()
            },
        }
    }

    /// Returns the first cell of a character, or `None` if it has more than 16 bytes.
    pub fn of(bytes: &[u8], attributes: CellAttributes) -> Option<Self>
        ensures shown { IfSome result (λ cell. shown_cell cell ≡ styled.ink attributes bytes.now) }
        ensures full { result ≡ None → 2 ^ 128 ≤ cluster_number bytes.now }
    {
        Some(TerminalCell {
            number: number_from(0, bytes)?,
            attributes,
        })
    }

    /// Returns the cell with a mark that joins it, or `None` if it has more than 16 bytes then.
    pub fn join(self, mark: &[u8]) -> Option<Self>
        ensures joined { IfSome result (λ cell.
            shown_cell cell ≡ styled.join (shown_cell self) mark.now) }
        ensures full { result ≡ None → 2 ^ 128 ≤ number_from self.number mark.now }
    {
        Some(TerminalCell {
            number: number_from(self.number, mark)?,
            attributes: self.attributes,
        })
    }
}
