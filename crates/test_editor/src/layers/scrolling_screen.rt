//! What a screen with a last row shows.

use super::support::{place_text, renew};
use std::alloc::Global;
use std::test::Fail;
use test_cases::{change_of, expect_runs, fault_text, pair_of};
use tw_surface::{Change, ScrollingScreen};

/// Writes `count` numbers, each on a row.
fn write_numbers(alloc: Global, screen: &mut ScrollingScreen, count: usize) -> Result<(), Fail> {
    for number in 0..count {
        let line = format!(in alloc; "{number}\r\n")?;
        screen.apply(&Change::Text(line))?;
    }
    Ok(())
}

/// Runs `new ROWS WIDTH`, `numbers COUNT`, or a change, and returns its fault. Answers `cursor`, `shown` (the cursor
/// and the first characters of three rows), and `char ROW COL`.
fn obey(alloc: Global, screen: &mut ScrollingScreen, command: &str) -> Result<String, Fail> {
    let (word, rest) = command.split_once(' ').unwrap_or((command, ""));
    Ok(match word {
        "shown" => {
            let (row, col) = screen.cursor();
            let (first, below) = (screen.char_at(0, 0), screen.char_at(1, 0));
            format!(in alloc;
                "{row} {col} {first:?} {below:?} {:?}",
                screen.char_at(2, 0)
            )?
        }
        "cursor" => place_text(alloc, screen.cursor())?,
        "char" => {
            let (row, col) = pair_of(rest)?;
            format!(in alloc; "{:?}", screen.char_at(row, col))?
        }
        "numbers" => {
            write_numbers(alloc, screen, rest.parse()?)?;
            String::new(alloc)
        }
        "new" => {
            let (rows, width) = pair_of(rest)?;
            renew(alloc, screen, ScrollingScreen::new(alloc, rows, width))?
        }
        _ => fault_text(alloc, &screen.apply(&change_of(alloc, command)?))?,
    })
}

const SCREENS: &str = r"
// sizes
new 0 1 => ZeroSize
new 1 0 => ZeroSize
new 65536 0 => ZeroSize
new 1 1 =>
new 65535 65535 =>
new 65536 1 => OutOfRange
new 1 65536 => OutOfRange

// rows go up
new 2 3; text abc; shown => 0 3 'a' ' ' ' '
text de; shown => 1 2 'a' 'd' ' '
text fg; shown => 1 1 'd' 'g' ' '
at +1 0; shown => 1 0 'g' ' ' ' '
text h; shown => 1 1 'g' 'h' ' '
at -3 0; shown => 0 0 'g' 'h' ' '
text i\n\n\r; shown => 1 0 'h' ' ' ' '
clear_below; shown => 1 0 'h' ' ' ' '
clear; shown => 0 0 ' ' ' ' ' '

// a text that is not plain
new 2 3; text é => NotPlain

// of many rows the last ones stay
new 24 10; numbers 10000; cursor => 23 0
char 0 0; char 0 1; char 0 2; char 0 3 => '9'; '9'; '7'; '7'
char 22 0; char 22 1; char 22 2; char 22 3 => '9'; '9'; '9'; '9'
char 23 0; char 23 1; char 23 2; char 23 3 => ' '; ' '; ' '; ' '

// rows that scrolled off do not count
new 3 4; text x; at +4000000000 0; cursor; char 0 0 => 2 0; ' '
text x; at +4000000000 0; cursor; char 0 0 => 2 0; ' '
text x; at +4000000000 0; cursor; char 0 0 => 2 0; ' '
at +4294967293 0 =>
at +4294967294 0; cursor => OutOfRange; 2 0

// far cells go up
new 60000 60000; at +59000 0; text ab; at +999 0; text c\r\n\n; cursor => 59999 0
char 58998 0; char 58998 1 => 'a'; 'b'
char 59000 0; char 59997 0; char 59999 0 => ' '; 'c'; ' '
";

#[test]
fn screens_scroll(rt: HostRuntime) -> Result<(), Fail> {
    let mut screen = ScrollingScreen::new(rt.alloc(), 2, 3)?;
    expect_runs(rt.alloc(), SCREENS, |alloc: Global, command: &str| {
        obey(alloc, &mut screen, command)
    })
}
