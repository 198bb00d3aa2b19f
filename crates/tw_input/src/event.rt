//! What comes from a terminal.

use crate::key::KeyEvent;

/// Something that happened at a terminal.
#[derive(Debug, Drop, PartialEq, Eq)]
pub enum InputEvent {
    /// A key was pressed.
    Key(KeyEvent),
    /// The screen has a new size, in columns and rows of cells.
    Resized { cols: usize, rows: usize },
    /// A text was pasted.
    Paste(String),
    /// The wait for events was interrupted.
    Wake,
}
