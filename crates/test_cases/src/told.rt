//! What came of a case, as text.

use std::alloc::{AllocError, Global};
use tw_lineedit::Error;
use tw_surface::{CellAttributes, Change, ColorAttribute, Position};
use tw_terminal::ScriptTerminal;

/// Returns what a reading of a line answered.
pub fn answer_text(
    alloc: Global,
    answer: &Result<Option<String>, Error>,
) -> Result<String, AllocError> {
    match answer {
        Ok(line) => format!(in alloc; "{line:?}"),
        Err(error) => {
            let number = error.number();
            format!(in alloc; "refusal {number}")
        }
    }
}

/// Returns the batches, one a line.
pub fn batches_text(alloc: Global, batches: &[Vec<Change>]) -> Result<String, AllocError> {
    let mut text = String::new(alloc);
    for batch in batches {
        write_batch(&mut text, batch)?;
        text.push('\n')?;
    }
    Ok(text)
}

/// Names the changes of a batch.
pub fn write_batch(text: &mut String, batch: &[Change]) -> Result<(), AllocError> {
    let mut parted = false;
    for change in batch {
        if parted {
            text.push_str(", ")?;
        }
        write_change(text, change)?;
        parted = true;
    }
    Ok(())
}

/// Names a change, its colour or attributes only where they are not the default ones.
fn write_change(text: &mut String, change: &Change) -> Result<(), AllocError> {
    match change {
        Change::ClearToEndOfScreen(ColorAttribute::Default) => text.push_str("ClearToEndOfScreen"),
        Change::ClearScreen(ColorAttribute::Default) => text.push_str("ClearScreen"),
        Change::AllAttributes(attributes) if *attributes == CellAttributes::default() => {
            text.push_str("AllAttributes")
        }
        Change::Text(shown) => write!(text, "Text({shown:?})"),
        Change::CursorPosition { x, y } => {
            text.push_str("CP(")?;
            write_position(text, *x)?;
            text.push_str(", ")?;
            write_position(text, *y)?;
            text.push(')')
        }
        other => write!(text, "{other:?}"),
    }
}

fn write_position(text: &mut String, position: Position) -> Result<(), AllocError> {
    match position {
        Position::Absolute(to) => write!(text, "A({to})"),
        Position::Relative(by) => write!(text, "R({by})"),
    }
}

/// Returns what a terminal has taken, and what it was left with.
pub fn terminal_text(alloc: Global, terminal: &ScriptTerminal) -> Result<String, AllocError> {
    let left = terminal.events_left();
    let flushed = terminal.flushed();
    let failures = terminal.failures();
    let batches = batches_text(alloc, terminal.batches())?;
    format!(in alloc; "{left} left, {flushed} flushed, {failures} failed\n{batches}")
}
