//! What comes of a case.

use crate::case::{Case, case_terminal, read_lines};
use crate::steps::take_steps;
use crate::told::{terminal_text, write_batch};
use script_player::{play_all, show_screen};
use std::alloc::{AllocError, Global};
use std::test::Fail;
use tw_lineedit::LineEditorHost;
use tw_surface::{Change, Screen};
use tw_terminal::ScriptTerminal;

/// Returns what comes of a case: the answers of its readings, or what comes of its steps. If it shows `batches`, what
/// the terminal has taken follows; if it shows `screen`, `painting` with the last painting, `closing` with the closing
/// batch, `screen` with the rows of the screen, and where its cursor was before the closing batch and after it.
pub fn told_of<H: LineEditorHost>(
    alloc: Global,
    case: &Case<'_>,
    host: &mut H,
) -> Result<String, Fail> {
    let mut terminal = case_terminal(alloc, case)?;
    told_on(alloc, case, host, &mut terminal)
}

/// Plays a case on its terminal, and returns what comes of it.
fn told_on<H: LineEditorHost>(
    alloc: Global,
    case: &Case<'_>,
    host: &mut H,
    terminal: &mut ScriptTerminal,
) -> Result<String, Fail> {
    let outcome = if case.steps.is_empty() {
        read_lines(alloc, case, host, terminal)?
    } else {
        take_steps(alloc, case, host, terminal)?
    };
    match case.shows {
        "" => Ok(outcome),
        "batches" => {
            let taken = terminal_text(alloc, terminal)?;
            Ok(format!(in alloc; "{}, {taken}", outcome.as_str().trim_end())?)
        }
        _ => {
            let shown = shown_text(alloc, case.size.cols, terminal.batches())?;
            Ok(format!(in alloc; "{outcome}\n{shown}")?)
        }
    }
}

fn shown_text(alloc: Global, cols: usize, batches: &[Vec<Change>]) -> Result<String, Fail> {
    let (closing, paintings) = batches.split_last().ok_or("no batch")?;
    let mut outcome = String::new(alloc);
    write_last(&mut outcome, paintings, closing.as_slice())?;
    let screen = screen_text(alloc, cols, paintings, closing.as_slice())?;
    write!(outcome, "\nscreen {screen}")?;
    Ok(outcome)
}

/// Names the changes of the last painting and of the closing batch.
fn write_last(
    outcome: &mut String,
    paintings: &[Vec<Change>],
    closing: &[Change],
) -> Result<(), AllocError> {
    if let Some(painting) = paintings.last() {
        outcome.push_str("painting ")?;
        write_batch(outcome, painting.as_slice())?;
    }
    outcome.push_str("\nclosing ")?;
    write_batch(outcome, closing)
}

/// Returns the rows that a screen shows of batches, and below them where the cursor was before the last one.
fn screen_text(
    alloc: Global,
    cols: usize,
    paintings: &[Vec<Change>],
    closing: &[Change],
) -> Result<String, Fail> {
    let mut screen = Screen::new(alloc, cols)?;
    let cursor = play_all(&mut screen, paintings, closing)?;
    let mut shown = String::new(alloc);
    show_screen(&screen, cursor, &mut shown)?;
    Ok(shown.replace(alloc, "|\n|", "|")?)
}
