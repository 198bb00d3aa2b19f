//! What a screen shows, and how many cells it keeps.

use super::support::{place_text, renew};
use std::alloc::Global;
use std::test::Fail;
use test_cases::{change_of, expect_runs, fault_text, pair_of};
use tw_surface::Screen;

/// Returns five columns of the first four rows, with a `/` after each row.
fn cells(alloc: Global, screen: &Screen) -> Result<String, Fail> {
    let mut text = String::new(alloc);
    for row in 0..4 {
        for col in 0..5 {
            text.push(screen.char_at(row, col))?;
        }
        text.push('/')?;
    }
    Ok(text)
}

/// Returns the numbers of near and far cells, counted in the screen's `Debug` text.
fn kept(alloc: Global, screen: &Screen) -> Result<String, Fail> {
    let shown = format!(in alloc; "{screen:?}")?;
    let (_, lists) = shown.split_once("near: [").ok_or("no near cells")?;
    let (near, far) = lists.split_once("], far: [").ok_or("no far cells")?;
    let near = near.split(',').filter(|byte| !byte.is_empty()).count();
    let far = far.split("Cell {").skip(1).count();
    Ok(format!(in alloc; "{near} {far}")?)
}

/// Returns the first columns of a row: `ROW WIDTH`.
fn row_text(alloc: Global, screen: &Screen, place: &str) -> Result<String, Fail> {
    let (row, width) = pair_of(place)?;
    let mut text = String::new(alloc);
    screen.push_row(row, width, &mut text)?;
    Ok(text)
}

/// Writes a line on each of the first `count` rows.
fn write_lines(alloc: Global, screen: &mut Screen, count: usize) -> Result<(), Fail> {
    let line = change_of(alloc, "text > line")?;
    for row in 0..count {
        let place = format!(in alloc; "at {row} 0")?;
        screen.apply(&change_of(alloc, place.as_str())?)?;
        screen.apply(&line)?;
    }
    Ok(())
}

/// Runs `new WIDTH`, `lines COUNT`, or a change, and returns its fault. Answers `cursor`, `cells`, `last` (the last
/// row), `kept`, `char ROW COL`, `row ROW WIDTH`, and `trimmed ROW WIDTH` (the row's length, and the row without its
/// last spaces).
fn obey(alloc: Global, screen: &mut Screen, command: &str) -> Result<String, Fail> {
    let (word, rest) = command.split_once(' ').unwrap_or((command, ""));
    Ok(match word {
        "cursor" => place_text(alloc, screen.cursor())?,
        "cells" => cells(alloc, screen)?,
        "last" => format!(in alloc; "{:?}", screen.last_row())?,
        "kept" => kept(alloc, screen)?,
        "row" => {
            let text = row_text(alloc, screen, rest)?;
            format!(in alloc; "|{text}|")?
        }
        "trimmed" => {
            let text = row_text(alloc, screen, rest)?;
            format!(in alloc; "{} {:?}", text.len(), text.trim_end())?
        }
        "char" => {
            let (row, col) = pair_of(rest)?;
            format!(in alloc; "{:?}", screen.char_at(row, col))?
        }
        "lines" => {
            write_lines(alloc, screen, rest.parse()?)?;
            String::new(alloc)
        }
        "new" => renew(alloc, screen, Screen::new(alloc, rest.parse()?))?,
        _ => fault_text(alloc, &screen.apply(&change_of(alloc, command)?))?,
    })
}

const SCREENS: &str = r#"
// sizes
new 0 => ZeroSize
new 1 =>
new 65535 =>
new 65536 => OutOfRange

// the cursor after each change
new 5; text abcde; cursor => 0 5
at +0 -2; cursor => 0 3
text \n; cursor => 1 3
reverse; cursor => 1 3
plain; cursor => 1 3
text \r; cursor => 1 0
at 1 9; cursor => 1 4
at +0 -7; cursor => 1 0
at -5 +2; cursor => 0 2
text xyzuv; cursor => 1 2
text wxy; cursor => 1 5
at +0 +0; cursor => 1 4
text y; cursor => 1 5
text \n; cursor => 2 5
text z; cursor => 3 1
at 7 5; cursor => 7 4
clear_below 1; cursor => 7 4
clear 1; cursor => 0 0

// what is refused changes nothing
new 5; text aé; cursor; last => NotPlain; 0 0; None
text one\r\ntw =>
text oé; cursor; cells => NotPlain; 1 2; one  /tw   /     /     /
text o\t; cursor; cells => NotPlain; 1 2; one  /tw   /     /     /
text o\u{7f}; cursor; cells => NotPlain; 1 2; one  /tw   /     /     /
at 4294967296 0; cursor; cells => OutOfRange; 1 2; one  /tw   /     /     /
at +4294967295 +0; cursor; cells => OutOfRange; 1 2; one  /tw   /     /     /

// the last row that a cursor reaches
new 5; at 4294967295 0; cursor => 4294967295 0
text xyzuvw; cursor => OutOfRange; 4294967295 0
text xyzuv; cursor => 4294967295 5
text w; cursor => OutOfRange; 4294967295 5
text \n; cursor => OutOfRange; 4294967295 5
text wé; cursor => NotPlain; 4294967295 5
at +1 +0; cursor; last => OutOfRange; 4294967295 5; Some(4294967295)
char 4294967295 4 => 'v'

// what a screen shows
new 5; clear 1; cells; last =>      /     /     /     /; None
text    ; cells; last =>      /     /     /     /; None
at 2 3; cells; last =>      /     /     /     /; None
text d; cells; last =>      /     /   d /     /; Some(2)
at +0 -3; cells; last =>      /     /   d /     /; Some(2)
text b; cells; last =>      /     / b d /     /; Some(2)
at 0 1; cells; last =>      /     / b d /     /; Some(2)
text klmno; cells; last =>  klmn/o    / b d /     /; Some(2)
at 0 2; cells; last =>  klmn/o    / b d /     /; Some(2)
text L M; cells; last =>  kL M/o    / b d /     /; Some(2)
at 2 1; cells; last =>  kL M/o    / b d /     /; Some(2)
text    ; cells; last =>  kL M/o    /     /     /; Some(1)
reverse; cells; last =>  kL M/o    /     /     /; Some(1)
at 0 2; cells; last =>  kL M/o    /     /     /; Some(1)
clear_below 1; cells; last =>  k   /     /     /     /; Some(0)
text z; cells; last =>  kz  /     /     /     /; Some(0)
clear 1; cells; last =>      /     /     /     /; None

// an empty text changes nothing
new 5; reverse; cursor; cells; last => 0 0;      /     /     /     /; None
text ; cursor; cells; last => 0 0;      /     /     /     /; None
text abcde; cursor; cells; last => 0 5; abcde/     /     /     /; Some(0)
text ; cursor; cells; last => 0 5; abcde/     /     /     /; Some(0)
at 2 3; cursor; cells; last => 2 3; abcde/     /     /     /; Some(0)
text ; cursor; cells; last => 2 3; abcde/     /     /     /; Some(0)
at 4294967295 4; cursor; cells; last => 4294967295 4; abcde/     /     /     /; Some(0)
text ; cursor; cells; last => 4294967295 4; abcde/     /     /     /; Some(0)

// beyond the width
new 5; text abcdef =>
char 0 4 => 'e'
char 0 5 => ' '
char 1 0 => 'f'
char 1 5 => ' '
char 0 18446744073709551615 => ' '
char 18446744073709551615 0 => ' '

// near and far rows
new 5; row 0 7 => |       |
text abcdefg; at 4294967295 1; text far; at 1 1; text GHIJKL; at 4294967295 2; text A; last => Some(4294967295)
row 0 7 => |abcde  |
row 1 7 => |fGHIJ  |
row 2 7 => |KL     |
row 3 7 => |       |
row 4294967295 7 => | fAr   |
row 18446744073709551615 7 => |       |
at 1 3; last => Some(4294967295)
clear_below 1; last => Some(1)
row 1 7 => |fGH    |
row 4294967295 7 => |       |

// a far cell, and then texts that close the gap before it: 4,096 places and 32 more for each character
new 5; at 900 1; text far; at 0 0; kept => 0 3
at 100 0; text abcdefghij; last; kept => Some(900); 4504 0
row 100 7 => |abcde  |
row 101 7 => |fghij  |
row 899 7 => |       |
row 900 7 => | far   |

// near cells end in no blank
new 5; at 700 0; kept => 0 0
text ; kept => 0 0
text    ; kept => 0 0
text \r\n; kept => 0 0
text  a  ; kept => 3507 0
at 700 0; kept => 3507 0
text b \r\n; kept => 3507 0
text   ; kept => 3501 0
clear 1; kept => 0 0

// the widest screen keeps few cells
new 65535; lines 100; kept; last; trimmed 99 65535 => 6 594; Some(99); 65535 "> line"
"#;

#[test]
fn screens_show_what_they_are_sent(rt: HostRuntime) -> Result<(), Fail> {
    let mut screen = Screen::new(rt.alloc(), 5)?;
    expect_runs(rt.alloc(), SCREENS, |alloc: Global, command: &str| {
        obey(alloc, &mut screen, command)
    })
}
