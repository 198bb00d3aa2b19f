//! Changes as text.

use std::alloc::Global;
use std::test::Fail;
use tw_surface::{AttributeChange, CellAttributes, Change, ColorAttribute, Intensity, Position};

/// Parses a position: relative if the number has a sign.
fn position_of(text: &str) -> Result<Position, Fail> {
    Ok(if text.starts_with('+') || text.starts_with('-') {
        Position::Relative(text.parse()?)
    } else {
        Position::Absolute(text.parse()?)
    })
}

/// Parses an index of the palette; an empty text is the default color.
fn color_of(text: &str) -> Result<ColorAttribute, Fail> {
    Ok(if text.is_empty() {
        ColorAttribute::Default
    } else {
        ColorAttribute::PaletteIndex(text.parse()?)
    })
}

/// Parses `ROW COL`: a move of the cursor.
fn move_of(text: &str) -> Result<Change, Fail> {
    let (row, col) = text.split_once(' ').ok_or("no column")?;
    let x = position_of(col)?;
    let y = position_of(row)?;
    Ok(Change::CursorPosition { x, y })
}

/// Parses a change: `text TEXT`, `at ROW COL` (relative with a sign), `clear` and `clear_below`, each with a palette
/// index or without, `plain`, `bold` or `reverse`.
pub fn change_of(alloc: Global, name: &str) -> Result<Change, Fail> {
    let (word, rest) = name.split_once(' ').unwrap_or((name, ""));
    Ok(match word {
        "text" => Change::Text(String::from_str(alloc, rest)?),
        "at" => move_of(rest)?,
        "clear" => Change::ClearScreen(color_of(rest)?),
        "clear_below" => Change::ClearToEndOfScreen(color_of(rest)?),
        "plain" => Change::AllAttributes(CellAttributes::default()),
        "bold" => Change::Attribute(AttributeChange::Intensity(Intensity::Bold)),
        "reverse" => Change::Attribute(AttributeChange::Reverse(true)),
        _ => return Err(Fail::from("no such change")),
    })
}
