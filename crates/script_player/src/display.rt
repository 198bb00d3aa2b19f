//! What a screen shows.

ghost use Rattle.std.specs.Prelude.{OnOk, string_bytes};
ghost use Rattle.script_player.specs.Answers.{IsContinuation};

use std::alloc::AllocError;
use tw_surface::{Change, Screen, ScreenFault};

/// Plays the batches in order, and returns where the cursor was before the last one.
pub fn play_all(
    screen: &mut Screen,
    paintings: &[Vec<Change>],
    closing: &[Change],
) -> Result<(usize, usize), ScreenFault> {
    for painting in paintings {
        play(screen, painting.as_slice())?;
    }
    let cursor = screen.cursor();
    play(screen, closing)?;
    Ok(cursor)
}

/// Plays a batch.
pub fn play(screen: &mut Screen, batch: &[Change]) -> Result<(), ScreenFault> {
    for change in batch {
        screen.apply(change)?;
    }
    Ok(())
}

/// Appends the rows of the screen, each between two bars, the cursor while the line was edited, and the cursor now.
pub fn show_screen(
    screen: &Screen,
    cursor: (usize, usize),
    shown: &mut String,
) -> Result<(), AllocError>
    ensures { OnOk result (IsContinuation (string_bytes shown.old) (string_bytes shown.new)) }
{
    if let Some(last) = screen.last_row() {
        shown.push('|')?;
        screen.push_rows(last, "|\n|", shown)?;
        screen.push_row(last, screen.width(), shown)?;
        shown.push_str("|\n")?;
    }
    let (row, col) = cursor;
    let (end_row, end_col) = screen.cursor();
    write!(shown, "cursor {row} {col}\nend {end_row} {end_col}\n")
}
