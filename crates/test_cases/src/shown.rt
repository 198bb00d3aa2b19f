//! What a terminal was shown, as text.

use std::alloc::{AllocError, Global};
use std::test::Fail;
use tw_surface::{CellAttributes, Change, Intensity, Screen};
use tw_terminal::ScriptTerminal;

/// Returns the changes of the last painting: the last batch but the closing one. Returns None if nothing was
/// painted.
pub fn last_painting(terminal: &ScriptTerminal) -> Option<&[Change]> {
    Some(terminal.batches().iter().rev().nth(1)?.as_slice())
}

/// Returns the texts of some changes, one after the other. If an attribute is set, its change stands between braces,
/// and `{}` if all are set to their defaults.
pub fn marked_text(alloc: Global, changes: &[Change]) -> Result<String, AllocError> {
    let mut marked = String::new(alloc);
    for change in changes {
        match change {
            Change::Text(text) => marked.push_str(text.as_str())?,
            Change::Attribute(attribute) => write!(marked, "{{{attribute:?}}}")?,
            Change::AllAttributes(attributes) => {
                if *attributes == CellAttributes::default() {
                    marked.push_str("{}")?;
                } else {
                    write!(marked, "{{{attributes:?}}}")?;
                }
            }
            Change::ClearScreen(_)
            | Change::ClearToEndOfScreen(_)
            | Change::CursorPosition { .. } => {}
        }
    }
    Ok(marked)
}

/// Returns the marked text of the last painting, with `{bold}` for bold attributes.
pub fn painted_text(alloc: Global, terminal: &ScriptTerminal) -> Result<String, Fail> {
    let painting = last_painting(terminal).ok_or("no painting")?;
    let mut attributes = CellAttributes::default();
    attributes.intensity = Intensity::Bold;
    let bold = format!(in alloc; "{attributes:?}")?;
    let marked = marked_text(alloc, painting)?;
    Ok(marked.replace(alloc, bold.as_str(), "bold")?)
}

/// Returns the rows of a screen of `width` columns, from row 0 to the last one that is not blank, without the spaces at
/// their ends.
pub fn rows(alloc: Global, screen: &Screen, width: usize) -> Result<Vec<String>, AllocError> {
    let mut rows = Vec::new(alloc);
    let Some(last) = screen.last_row() else {
        return Ok(rows);
    };
    for row in 0..=last {
        let mut text = String::new(alloc);
        for col in 0..width {
            text.push(screen.char_at(row, col))?;
        }
        rows.push(String::from_str(alloc, text.as_str().trim_end())?)?;
    }
    Ok(rows)
}
