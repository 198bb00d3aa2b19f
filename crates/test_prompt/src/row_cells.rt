//! The cells of lines in rows, on screens of 2 to 40 columns and with the cursor at each place, against a table by
//! division.

use std::alloc::Global;
use std::test::Fail;
use test_cases::{expect_rows, hold};
use tw_input::{InputEvent, KeyCode, KeyEvent, Modifiers};
use tw_lineedit::{LineEditor, LineEditorHost};
use tw_prompt_host::{PromptHost, Rows};
use tw_surface::Screen;
use tw_terminal::{ScreenSize, ScriptTerminal};

/// How a line is shown.
#[derive(Clone, Copy)]
struct Shape<'a> {
    cols: usize,
    prompt: &'a str,
    continuation: &'a str,
}

impl Shape<'_> {
    /// Returns the cell behind `count` columns.
    fn cell(self, row: usize, count: usize) -> Result<(usize, usize), Fail> {
        let down = count.checked_div(self.cols).ok_or("no columns")?;
        let col = count.checked_rem(self.cols).ok_or("no columns")?;
        Ok((row.saturating_add(down), col))
    }

    /// Returns the row of the screen in which the last row of a text begins, and the columns before it and in it. Each
    /// row before it takes one row of the screen, and one more for each time that its columns fill one.
    fn last_row(self, text: &str) -> Result<(usize, usize), Fail> {
        let mut start: usize = 0;
        let mut count = self.prompt.len();
        for (at, row) in text.split('\n').enumerate() {
            if at > 0 {
                let (end, _) = self.cell(start, count)?;
                start = end.saturating_add(1);
                count = self.continuation.len();
            }
            count = count.saturating_add(row.len());
        }
        Ok((start, count))
    }

    /// Returns the cell behind a text.
    fn behind(self, text: &str) -> Result<(usize, usize), Fail> {
        let (start, count) = self.last_row(text)?;
        self.cell(start, count)
    }
}

/// Returns what a painting of a line shows: each row as it stands on the screen, with the blanks at its end.
fn table(alloc: Global, shape: Shape<'_>, line: &str) -> Result<Vec<String>, Fail> {
    let (last, _) = shape.behind(line)?;
    let mut rows = Vec::new(alloc);
    let mut text = String::new(alloc);
    let mut row = String::from_str(alloc, shape.prompt)?;
    for character in line.chars() {
        if character == '\n' {
            text.push_str(padded(alloc, shape.cols, row.as_str())?.as_str())?;
            row = String::from_str(alloc, shape.continuation)?;
        } else {
            row.push(character)?;
        }
    }
    text.push_str(padded(alloc, shape.cols, row.as_str())?.as_str())?;
    let mut cells = text.as_str().chars();
    for _ in 0..=last {
        let mut shown = String::new(alloc);
        for _ in 0..shape.cols {
            shown.push(cells.next().ok_or("no cell")?)?;
        }
        rows.push(shown)?;
    }
    Ok(rows)
}

/// Returns a row with blanks up to the end of the last row of the screen that it takes.
fn padded(alloc: Global, cols: usize, row: &str) -> Result<String, Fail> {
    let rows = row
        .len()
        .checked_div(cols)
        .ok_or("no columns")?
        .saturating_add(1);
    let mut padded = String::from_str(alloc, row)?;
    for _ in row.len()..rows.saturating_mul(cols) {
        padded.push(' ')?;
    }
    Ok(padded)
}

/// Compares a screen with the table of a line that has its cursor behind `before`.
fn compare(
    alloc: Global,
    shape: Shape<'_>,
    screen: &Screen,
    line: &str,
    before: &str,
) -> Result<(), Fail> {
    let wanted = table(alloc, shape, line)?;
    let mut number: usize = 0;
    for row in &wanted {
        let mut shown = String::new(alloc);
        screen.push_row(number, shape.cols, &mut shown)?;
        hold(shown == *row, shown.as_str(), row.as_str())?;
        number = number.saturating_add(1);
    }
    hold(screen.last_row().unwrap_or(0) < number, line, "rows below")?;
    hold(screen.cursor() == shape.behind(before)?, line, before)
}

/// Plays the batches from `played` on, and returns their number.
fn play(screen: &mut Screen, terminal: &ScriptTerminal, played: usize) -> Result<usize, Fail> {
    for batch in terminal.batches().get(played..).unwrap_or(&[]) {
        for change in batch {
            screen.apply(change).or(Err("a change"))?;
        }
    }
    Ok(terminal.batches().len())
}

/// Shows a line with its cursor at the end and then further back at each event, and compares each screen.
fn show_line<H: LineEditorHost>(
    alloc: Global,
    shape: Shape<'_>,
    host: &mut H,
    line: &str,
) -> Result<(), Fail> {
    let size = ScreenSize {
        rows: 24,
        cols: shape.cols,
    };
    let mut terminal = ScriptTerminal::new(alloc, size, Vec::new(alloc));
    let mut screen = Screen::new(alloc, shape.cols).or(Err("no screen"))?;
    let mut editor = LineEditor::new(alloc, &mut terminal)?;
    editor.set_prompt(shape.prompt)?;
    editor.begin_line(host, Some(line))?;
    let mut played = play(&mut screen, editor.terminal(), 0)?;
    compare(alloc, shape, &screen, line, line)?;
    for at in 1..=line.len() {
        let back = InputEvent::Key(KeyEvent {
            key: KeyCode::LeftArrow,
            modifiers: Modifiers::NONE,
        });
        let _status = editor.feed(host, &back)?;
        played = play(&mut screen, editor.terminal(), played)?;
        let before = line
            .get(..line.len().saturating_sub(at))
            .ok_or("no character")?;
        compare(alloc, shape, &screen, line, before)?;
    }
    Ok(())
}

/// Shows a line in rows.
fn try_line(alloc: Global, shape: Shape<'_>, line: &str) -> Result<(), Fail> {
    let continuation = String::from_str(alloc, shape.continuation)?;
    let mut host = PromptHost::new(alloc, shape.prompt, shape.cols)?;
    host.rows = Rows::Several(continuation);
    show_line(alloc, shape, &mut host, line)
}

/// Tries a line, `PROMPT|CONTINUATION|LINE` with `/` for a line feed, on screens of 2 to 40 columns.
fn try_row(alloc: Global, row: &str) -> Result<String, Fail> {
    let (prompt, rest) = row.split_once('|').ok_or("no continuation")?;
    let (continuation, line) = rest.split_once('|').ok_or("no line")?;
    let line = line.replace(alloc, "/", "\n")?;
    for cols in 2..=40 {
        let shape = Shape {
            cols,
            prompt,
            continuation,
        };
        try_line(alloc, shape, line.as_str())?;
    }
    Ok(String::from_str(alloc, "as by division")?)
}

const LINES: &str = "\
|| => as by division
> |. | => as by division
> |. |/ => as by division
||/// => as by division
> |. |a/bc/def => as by division
|. |abcdefgh/ijklmnopqrst/u => as by division
> ||select a from b/where c = 1;/ => as by division
database> |     ...> |create table t (/  a, b/); => as by division
";

#[test]
fn cells_of_rows_stand_by_division(rt: HostRuntime) -> Result<(), Fail> {
    expect_rows(rt.alloc(), LINES, try_row)
}
