//! The changes that are drawn on a screen.

ghost use Rattle.std.specs.Prelude.{◌≡◌, ◌≤◌, ℕ, List, pos, IfOk, OnErr, string_bytes};
ghost use Rattle.tw_surface.specs.ChangeView.{change_view, Text as TextView};
ghost use Rattle.tw_surface.specs.Positions.{position_after, at_least_0};

use crate::cell::{AttributeChange, CellAttributes};
use crate::color::ColorAttribute;
use std::alloc::{AllocError, Global};

/// A column or a row: a number from 0, or a distance from where the cursor stands.
#[derive(Debug, Copy, Clone, PartialEq, Eq)]
pub enum Position {
    /// The column or row itself, from 0.
    Absolute(usize),
    /// Columns to the right or rows down; a negative number leads left or up.
    Relative(isize),
}

impl Position {
    /// Returns where it leads from a column or a row up to 4,294,967,295, or 0 in place of a negative number.
    pub(crate) fn moved_from(self, at: usize) -> usize
        requires { at ≤ 4294967295 }
        ensures { result ≡ at_least_0 (position_after self (pos at)) }
    {
        match self {
            Position::Absolute(to) => to,
            Position::Relative(by) => at.saturating_add_signed(by),
        }
    }
}

/// One step of drawing.
#[derive(Debug, Drop, PartialEq, Eq)]
pub enum Change {
    /// Sets one attribute of the text that follows.
    Attribute(AttributeChange),
    /// Sets all attributes of the text that follows.
    AllAttributes(CellAttributes),
    /// Writes a text at the cursor, which moves after it.
    Text(String),
    /// Clears the whole screen to a colour and moves the cursor to row 0, column 0.
    ClearScreen(ColorAttribute),
    /// Clears to a colour from the cursor's cell on, in its row and in all rows below. The cursor stays.
    ClearToEndOfScreen(ColorAttribute),
    /// Moves the cursor to a column and a row.
    CursorPosition { x: Position, y: Position },
}

impl Change {
    /// Returns an equal change. Only a text takes memory, and a refusal leaves nothing behind.
    pub fn try_clone(&self, alloc: Global) -> Result<Change, AllocError>
        ensures equal { IfOk result (λ change. change_view change ≡ change_view self.now) }
        ensures memory { OnErr result ((text : List ℕ) × (change_view self.now ≡ TextView text)) }
    {
        match self {
            Change::Attribute(change) => Ok(Change::Attribute(*change)),
            Change::AllAttributes(attributes) => Ok(Change::AllAttributes(*attributes)),
            Change::Text(text) => Ok(Change::Text(String::from_str(alloc, text.as_str())?)),
            Change::ClearScreen(color) => Ok(Change::ClearScreen(*color)),
            Change::ClearToEndOfScreen(color) => Ok(Change::ClearToEndOfScreen(*color)),
            Change::CursorPosition { x, y } => Ok(Change::CursorPosition { x: *x, y: *y }),
        }
    }
}

impl From<String> for Change {
    ghost from_gives = { λ text made. change_view made ≡ TextView (string_bytes text) };

    fn from(text: String) -> Change {
        Change::Text(text)
    }
}
