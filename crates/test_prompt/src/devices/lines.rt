//! Painted lines, and the bytes that are sent for them.

use std::alloc::Global;
use std::io::{ErrorKind, Write};
use std::test::Fail;
use std::{io, str};
use test_cases::{expect_rows, pair_of};
use tw_device::DeviceTerminal;
use tw_sparing::PatientTerminal;
use tw_surface::{CellAttributes, Change, ColorAttribute, Position};
use tw_terminal::ScreenSize;

/// Paints a text from column 0 of the row `up` rows from the cursor, and moves the cursor to `col`. Ignores refusals.
fn paint<T: DeviceTerminal>(
    alloc: Global,
    terminal: &mut T,
    up: isize,
    col: usize,
    text: &str,
) -> Result<(), Fail> {
    let first = Position::Absolute(0);
    let here = Position::Relative(0);
    let changes = [
        Change::CursorPosition {
            x: first,
            y: Position::Relative(up),
        },
        Change::ClearToEndOfScreen(ColorAttribute::Default),
        Change::AllAttributes(CellAttributes::default()),
        Change::Text(String::from_str(alloc, text)?),
        Change::CursorPosition {
            x: Position::Absolute(col),
            y: here,
        },
    ];
    let _ = terminal.render(&changes);
    Ok(())
}

/// Closes a line: leads to column 0 of the row below, and empties what stands there. No more is at hand then. Ignores a
/// refusal.
fn close<T: DeviceTerminal>(terminal: &mut T) {
    terminal.set_more_at_hand(false);
    let changes = [
        Change::CursorPosition {
            x: Position::Absolute(0),
            y: Position::Relative(1),
        },
        Change::ClearToEndOfScreen(ColorAttribute::Default),
    ];
    let _ = terminal.render(&changes);
}

/// Paints `UP COL TEXT`.
fn paint_line<T: DeviceTerminal>(alloc: Global, terminal: &mut T, line: &str) -> Result<(), Fail> {
    let (up, rest) = line.split_once(' ').ok_or("no column")?;
    let (col, text) = rest.split_once(' ').ok_or("no text")?;
    paint(alloc, terminal, up.parse()?, col.parse()?, text)
}

/// Paints `COUNT` times `x`, and a text behind them: `COUNT TEXT`.
fn paint_long<T: DeviceTerminal>(alloc: Global, terminal: &mut T, line: &str) -> Result<(), Fail> {
    let (count, end) = line.split_once(' ').unwrap_or((line, ""));
    let mut text = "x".repeat(alloc, count.parse()?)?;
    text.push_str(end)?;
    let col = text.chars().count();
    paint(alloc, terminal, 0, col, text.as_str())
}

/// Types `count` keys; more are at hand until the last one.
fn type_keys<T: DeviceTerminal>(alloc: Global, terminal: &mut T, count: usize) -> Result<(), Fail> {
    let mut line = String::from_str(alloc, "> ")?;
    for typed in 1..=count {
        line.push('x')?;
        terminal.set_more_at_hand(typed < count);
        paint(alloc, terminal, 0, line.len(), line.as_str())?;
    }
    Ok(())
}

/// Runs `line UP COL TEXT`, `more UP COL TEXT` (more keys are at hand), `long COUNT TEXT`, `keys COUNT`, `close`,
/// `flush`, `says TEXT` (the owner's text), or `size ROWS COLS`.
fn do_to<T: DeviceTerminal>(alloc: Global, terminal: &mut T, command: &str) -> Result<(), Fail> {
    let (word, rest) = command.split_once(' ').unwrap_or((command, ""));
    match word {
        "line" | "more" => {
            terminal.set_more_at_hand(word == "more");
            paint_line(alloc, terminal, rest)?;
        }
        "long" => paint_long(alloc, terminal, rest)?,
        "keys" => type_keys(alloc, terminal, rest.parse()?)?,
        "close" => close(terminal),
        "flush" => {
            let _ = terminal.flush();
        }
        "says" => {
            let _ = terminal.send(rest);
        }
        "size" => {
            let (rows, cols) = pair_of(rest)?;
            terminal.set_screen_size(ScreenSize { rows, cols });
        }
        _ => return Err(Fail::from("no such command")),
    }
    Ok(())
}

/// Runs the first `count` commands.
fn do_all<T: DeviceTerminal>(
    alloc: Global,
    terminal: &mut T,
    commands: &str,
    count: usize,
) -> Result<(), Fail> {
    for command in commands.split("; ").take(count) {
        do_to(alloc, terminal, command)?;
    }
    Ok(())
}

/// A writer that keeps what it takes, and refuses one write, by its number from 1.
#[derive(Drop)]
struct Wire<'a> {
    taken: &'a mut Vec<u8>,
    writes: usize,
    refused: usize,
}

impl<'a> Wire<'a> {
    /// Creates a writer that adds what it takes, and refuses the write of this number.
    fn new(taken: &'a mut Vec<u8>, refused: usize) -> Self {
        Wire {
            taken,
            writes: 0,
            refused,
        }
    }
}

impl Write for Wire<'_> {
    fn write(&mut self, buf: &[u8]) -> io::Result<usize> {
        self.writes = self.writes.saturating_add(1);
        if self.writes == self.refused {
            return Err(io::Error::from(ErrorKind::BrokenPipe));
        }
        self.taken.extend_from_slice(buf)?;
        Ok(buf.len())
    }

    fn flush(&mut self) -> io::Result<()> {
        Ok(())
    }
}

/// Returns the bytes that are sent for the first `count` commands at a terminal of `ROWS COLS REFUSED`.
fn sent(alloc: Global, terminal: &str, commands: &str, count: usize) -> Result<Vec<u8>, Fail> {
    let (size, refused) = terminal.rsplit_once(' ').ok_or("no refused write")?;
    let (rows, cols) = pair_of(size)?;
    let mut taken = Vec::new(alloc);
    let wire = Wire::new(&mut taken, refused.parse()?);
    {
        let mut terminal = PatientTerminal::new(alloc, wire, ScreenSize { rows, cols });
        do_all(alloc, &mut terminal, commands, count)?;
    }
    Ok(taken)
}

/// Returns the bytes that are sent for the last command, or their number if it exceeds 100: `ROWS COLS REFUSED;
/// COMMAND; ..`, with the number of the write that fails, or 0.
fn last_sent(alloc: Global, run: &str) -> Result<String, Fail> {
    let (terminal, commands) = run.split_once("; ").ok_or("no command")?;
    let count = commands.split("; ").count();
    let before = sent(alloc, terminal, commands, count.saturating_sub(1))?;
    let all = sent(alloc, terminal, commands, count)?;
    let last = all
        .as_slice()
        .strip_prefix(before.as_slice())
        .ok_or("other bytes")?;
    if last.len() > 100 {
        return Ok(format!(in alloc; "{} bytes", last.len())?);
    }
    Ok(String::from_str(alloc, str::from_utf8(last)?)?)
}

const LINES: &str = r"
// a character at the end is one byte
24 20000 0; long 1; long 1 y => y
24 20000 0; long 10; long 10 y => y
24 20000 0; long 1000; long 1000 y => y
24 20000 0; long 10000; long 10000 y => y

// the first line is sent whole
24 80 0; line 0 3 > a => \r\e[K\e[C\e[J\r\e[0m> a\r\e[3C

// what is shown is not sent again
24 80 0; line 0 4 > ab; line 0 4 > ab =>

// a key to the left is one byte
24 80 0; line 0 4 > ab; line 0 3 > ab => \u{8}

// the cursor goes the short way
24 80 0; line 0 12 > abcdefghij; line 0 9 > abcdefghij => \u{8}\u{8}\u{8}
24 80 0; line 0 12 > abcdefghij; line 0 8 > abcdefghij => \e[4D
24 80 0; line 0 12 > abcdefghij; line 0 0 > abcdefghij => \r
24 80 0; line 0 4 > abcdefghij; line 0 5 > abcdefghij => \e[C
24 80 0; line 0 2 > abcdefghij; line 0 12 > abcdefghij => \e[10C

// a cell of the row above is two moves away
24 80 0; line 0 1 a\r\nb; line -1 1 x\r\nb => \e[A\rx\n

// a shorter line is emptied behind its end
24 80 0; line 0 5 > abc; line 0 4 > ab => \u{8}\e[J

// the last row scrolls
3 10 0; line 0 1 a\r\nb\r\nc; line -2 1 a\r\nb\r\nc\r\nd => \r\nd

// a row that was reached before is one move away
24 80 0; line 0 1 a\r\n\r\n\r\n\r\n\r\nf; line -5 1 a; line 0 1 a\r\n\r\n\r\n\r\n\r\nf => \e[5B\rf

// a full row is followed by the next one
3 10 0; line 0 9 > 2345678; line 0 0 > 23456789\r\n => 9\r\n

// a line that goes on is typed through the rows
3 10 0; line 0 9 > 2345678; line 0 3 > 23456789abcdefghijklm => 9abcdefghijklm

// a character of one column is sent by itself, in any script
24 80 0; line 0 3 > a; line 0 3 > é => \u{8}é
24 80 0; line 0 3 > é; line 0 3 > b => \u{8}b
24 80 0; line 0 3 > ж; line 0 4 > жд => д
24 20000 0; long 500 ж; long 500 жд => д
24 80 0; line 0 4 > жд; line 0 5 > жad => \u{8}ad
3 10 0; line 0 9 > 234567λ; line 0 3 > 234567λμνab => μνab
24 80 0; line 0 3 > ж; line 0 1 > ж\r\nя => \r\nя

// wide characters, and marks, are sent as they are
24 80 0; line 0 3 > a; line 0 4 > 日 => \r\e[K\e[C\e[J\r\e[0m> 日\r\e[4C
24 80 0; line 0 3 > e; line 0 3 > e\u{301} => \r\e[K\e[C\e[J\r\e[0m> e\u{301}\r\e[3C

// behind them a line is sent whole
24 80 0; line 0 4 > 日; line 0 3 > b => \r\e[K\e[C\e[J\r\e[0m> b\r\e[3C
24 80 0; line 0 4 > 日; line 0 3 > b; line 0 4 > bc => c

// behind a refused write a line is sent whole
24 80 2; line 0 2 >\u{20}; line 0 3 > a; line 0 4 > ab => \r\e[K\e[C\e[J\r\e[0m> ab\r\e[4C
24 80 2; line 0 2 >\u{20}; line 0 3 > a; line 0 4 > ab; line 0 5 > abc => c

// of more rows than the terminal has those in sight are sent
2 10 0; line 0 1 a\r\nb\r\nc; line -2 2 a\r\nb\r\ncd => d

// of more rows than the terminal has a new one scrolls
2 10 0; line 0 1 a\r\nb\r\nc; line -2 1 a\r\nb\r\nc\r\nd => \r\nd

// fewer rows than the terminal has are sent whole after more
2 10 0; line 0 1 a\r\nb\r\nc; line -2 1 a => \e[2A\r\e[K\e[C\e[J\r\e[0ma\r\e[1C

// behind a closed line the next one is sent as what differs, and of what stands above nothing is known
24 80 0; line 0 3 > a; close => \r\n
24 80 0; line 0 3 > a; close; line 0 3 > b => > b
24 80 0; line 0 3 > a; close; line -1 3 > a => \e[1A\r\e[K\e[C\e[J\r\e[0m> a\r\e[3C
24 80 0; line 0 3 > a; close; line 0 3 > b => > b
24 80 0; line 0 3 > a; more 0 4 > ab; close => b\r\n

// nothing is sent while keys are at hand
24 80 0; line 0 2 >\u{20}; more 0 3 > a =>
24 80 0; line 0 2 >\u{20}; more 0 3 > a; more 0 4 > ab =>

// the last line is sent in one
24 80 0; line 0 2 >\u{20}; more 0 3 > a; more 0 4 > ab; line 0 5 > abc => abc

// a thousand keys are sent as one line
24 2000 0; line 0 2 >\u{20}; keys 1000 => 1000 bytes

// a flush sends what is kept back, and nothing of what was sent
24 80 0; line 0 2 >\u{20}; more 0 3 > a; more 0 4 > ab; flush => ab
24 80 0; line 0 2 >\u{20}; more 0 3 > a; flush; flush =>
24 80 0; line 0 2 >\u{20}; more 0 3 > a; flush; line 0 4 > ab => b

// what is kept back goes before a line of wide characters, a text of the owner, and a new size
24 80 0; line 0 2 >\u{20}; more 0 3 > a; more 0 4 > 日 => a\r\e[K\e[C\e[J\r\e[0m> 日\r\e[4C
24 80 0; line 0 2 >\u{20}; more 0 3 > a; says note\r\n => a\e[0mnote\r\n
24 80 0; line 0 2 >\u{20}; more 0 3 > a; says note\r\n; line 0 3 > a => \r\e[K\e[C\e[J\r\e[0m> a\r\e[3C
24 80 0; line 0 2 >\u{20}; more 0 3 > a; size 24 80 => a

// after a refused write a line is sent whole
24 80 2; line 0 2 >\u{20}; more 0 3 > a; line 0 4 > ab; line 0 5 > abc => \r\e[K\e[C\e[J\r\e[0m> abc\r\e[5C
24 80 2; line 0 2 >\u{20}; more 0 3 > a; flush; line 0 4 > ab => \r\e[K\e[C\e[J\r\e[0m> ab\r\e[4C
";

#[test]
fn what_changed_is_sent(rt: HostRuntime) -> Result<(), Fail> {
    expect_rows(rt.alloc(), LINES, last_sent)
}
