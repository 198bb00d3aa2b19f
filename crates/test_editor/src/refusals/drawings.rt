//! Sequences of changes and screens, with each request refused in turn.

use std::alloc::{AllocError, Global};
use std::test::Fail;
use test_cases::{expect_cases, hold, mark, write_batch};
use tw_surface::{AddFault, Change, ChangeSequence, ColorAttribute, Position, Screen, ScreenFault};

/// A change that is added to a sequence, or the column and the row to which it moves.
#[derive(Drop)]
enum Drawn {
    Change(Change),
    To((usize, isize)),
}

/// Returns the change of `text TEXT`, with `\r` and `\n` for these, of `move COLUMNS ROWS` or of `clear`, or `to COLUMN
/// ROW`.
fn drawn_of(alloc: Global, line: &str) -> Result<Drawn, Fail> {
    let (word, text) = line.split_once(' ').unwrap_or((line, ""));
    if word == "text" {
        let text = text.replace(alloc, "\\r", "\r")?;
        let text = text.as_str().replace(alloc, "\\n", "\n")?;
        return Ok(Drawn::Change(Change::Text(text)));
    }
    if word == "clear" {
        let change = Change::ClearToEndOfScreen(ColorAttribute::Default);
        return Ok(Drawn::Change(change));
    }
    let (x, y) = text.split_once(' ').ok_or("no place")?;
    if word == "to" {
        return Ok(Drawn::To((x.parse()?, y.parse()?)));
    }
    Ok(Drawn::Change(Change::CursorPosition {
        x: Position::Relative(x.parse()?),
        y: Position::Relative(y.parse()?),
    }))
}

/// Returns a copy that is made between marks, again if it is refused.
fn copy_of(alloc: Global, change: &Change) -> Result<Change, Fail> {
    mark(alloc)?;
    let copy = change.try_clone(alloc);
    mark(alloc)?;
    match copy {
        Ok(copy) => Ok(copy),
        Err(_) => Ok(change.try_clone(alloc)?),
    }
}

fn add(drawing: &mut ChangeSequence, drawn: Drawn) -> Result<(), AddFault> {
    match drawn {
        Drawn::Change(change) => drawing.add(change),
        Drawn::To(place) => drawing.move_to(place),
    }
}

/// Returns where a sequence has come to: column, row and height.
fn place_text(alloc: Global, drawing: &ChangeSequence) -> Result<String, AllocError> {
    let (col, row) = drawing.current_cursor_position();
    format!(in alloc; "{col} {row} {}", drawing.render_height())
}

/// Adds to a sequence of 5 columns between marks. A refused change leaves it as it was; it is made and added again.
/// Returns where each leads, and all changes.
fn play_sequence(alloc: Global, lines: &str) -> Result<String, Fail> {
    let mut drawing = ChangeSequence::new(alloc, 24, 5)?;
    let mut outcome = String::new(alloc);
    for line in lines.lines() {
        let before = place_text(alloc, &drawing)?;
        let drawn = match drawn_of(alloc, line)? {
            Drawn::Change(change) => Drawn::Change(copy_of(alloc, &change)?),
            to => to,
        };
        mark(alloc)?;
        let added = add(&mut drawing, drawn);
        mark(alloc)?;
        if let Err(fault) = added {
            let left = place_text(alloc, &drawing)?;
            hold(
                fault == AddFault::Memory && left == before,
                line,
                left.as_str(),
            )?;
            add(&mut drawing, drawn_of(alloc, line)?)?;
        }
        let place = place_text(alloc, &drawing)?;
        write!(outcome, "{place}\n")?;
    }
    write_batch(&mut outcome, drawing.consume().as_slice())?;
    Ok(outcome)
}

const SEQUENCES: &str = "\
clear
text abcde
text f
text \u{e9}\\r\\nx
move 2 -4
text \u{4e00}\\n
--
0 0 0
5 0 0
1 1 1
1 2 2
3 -2 4
5 -1 4
ClearToEndOfScreen, Text(\"abcde\"), Text(\"f\"), Text(\"\u{e9}\\r\\nx\"), CP(R(2), R(-4)), Text(\"\u{4e00}\\n\")
==
to 3 1
to 0 0
to 4 -2
to 4 2
to 1 2
--
3 1 1
0 0 1
4 -2 3
4 2 4
1 2 4
CP(R(3), R(1)), CP(R(-3), R(-1)), CP(R(4), R(-2)), CP(R(0), R(4)), CP(R(-3), R(0))
==
text a
move 1 2
clear
--
1 0 0
2 2 2
2 2 2
Text(\"a\"), CP(R(1), R(2)), ClearToEndOfScreen
==
";

#[test]
fn added_changes_refused_in_turn(rt: HostRuntime) -> Result<(), Fail> {
    expect_cases(rt.alloc(), SEQUENCES, play_sequence)
}

/// Returns the rows of a screen of 5 columns, each ended by a bar, and its cursor.
fn screen_text(alloc: Global, screen: &Screen) -> Result<String, AllocError> {
    let mut text = String::new(alloc);
    for row in 0..=screen.last_row().unwrap_or(0) {
        for col in 0..5 {
            text.push(screen.char_at(row, col))?;
        }
        text.push('|')?;
    }
    let (row, col) = screen.cursor();
    write!(text, " {row} {col}")?;
    Ok(text)
}

/// Applies changes to a screen of 5 columns between marks. A refused one leaves every cell and the cursor, and is
/// applied again. Returns what each shows.
fn play_screen(alloc: Global, lines: &str) -> Result<String, Fail> {
    let mut screen = Screen::new(alloc, 5)?;
    let mut outcome = String::new(alloc);
    for line in lines.lines() {
        let Drawn::Change(change) = drawn_of(alloc, line)? else {
            return Err(Fail::from("no change"));
        };
        let before = screen_text(alloc, &screen)?;
        mark(alloc)?;
        let applied = screen.apply(&change);
        mark(alloc)?;
        if let Err(fault) = applied {
            let left = screen_text(alloc, &screen)?;
            hold(
                fault == ScreenFault::Memory && left == before,
                line,
                left.as_str(),
            )?;
            screen.apply(&change)?;
        }
        let shown = screen_text(alloc, &screen)?;
        write!(outcome, "{shown}\n")?;
    }
    Ok(outcome)
}

const SCREENS: &str = "\
text ab
text cdefg
move -1 0
text x\\r\\ny
move -1 -2
text hello world!
move 0 -1
clear
--
ab   | 0 2
abcde|fg   | 1 2
abcde|fg   | 1 1
abcde|fx   |y    | 2 1
abcde|fx   |y    | 0 0
hello| worl|d!   | 2 2
hello| worl|d!   | 1 2
hello| w   | 1 2
==
";

#[test]
fn screens_refused_in_turn(rt: HostRuntime) -> Result<(), Fail> {
    expect_cases(rt.alloc(), SCREENS, play_screen)
}
