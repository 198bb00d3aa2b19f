//! What is typed, as a prompt takes it.

use std::alloc::Global;
use std::cell::Cell;
use std::io::{self, ErrorKind, Read};
use std::test::Fail;
use std::time::{Clock, Duration};
use test_cases::{bytes_of, event_text, expect_rows, mark};
use tw_device::{EventSource, KeyReader, Pasted};
use tw_prompt::{PromptEvents, Typed};
use tw_terminal::TerminalFault;

/// How long a terminal waits, in milliseconds.
const PAUSE: u64 = 100;

/// What is typed at a terminal: at each `|` the terminal waits, and all before the next one is at hand.
#[derive(Drop)]
struct Typing<'a> {
    keys: &'a [u8],
    now: &'a Cell<u64>,
}

impl Read for Typing<'_> {
    fn read(&mut self, buf: &mut [u8]) -> io::Result<usize> {
        let keys = self.keys;
        if let [b'|', rest @ ..] = keys {
            self.keys = rest;
            self.now.set(self.now.get().saturating_add(PAUSE));
            return Ok(0);
        }
        let at_hand = keys
            .iter()
            .position(|key| *key == b'|')
            .unwrap_or(keys.len());
        let count = at_hand.min(buf.len());
        let (read, rest) = keys.split_at(count);
        buf[..count].copy_from_slice(read);
        self.keys = rest;
        Ok(count)
    }
}

/// The clock of that terminal, which refuses the call after `calls` others.
#[derive(Drop)]
struct Refusing<'a> {
    now: &'a Cell<u64>,
    calls: Cell<u32>,
}

impl Clock for Refusing<'_> {
    fn monotonic(&self) -> io::Result<Duration> {
        let left = self.calls.get();
        self.calls.set(left.wrapping_sub(1));
        if left == 0 {
            return Err(io::Error::from(ErrorKind::Other));
        }
        Ok(Duration::from_millis(self.now.get()))
    }

    fn since_1970(&self) -> io::Result<Duration> {
        Err(io::Error::from(ErrorKind::Other))
    }
}

/// Returns the events of a source up to its end, parted by commas.
fn told_by<S: EventSource + Drop>(alloc: Global, mut events: S) -> Result<String, Fail> {
    let mut told = String::new(alloc);
    for _ in 0..100 {
        let event = match events.next_event() {
            Ok(Some(event)) => event,
            Ok(None) => break,
            Err(_) => continue,
        };
        if !told.is_empty() {
            told.push_str(", ")?;
        }
        told.push_str(event_text(alloc, &event)?.as_str())?;
    }
    Ok(told)
}

/// Returns the events of what is typed at a terminal, if `most` bytes are asked for at once and the clock refuses the
/// call after `calls` others.
fn typed(alloc: Global, row: &str, most: usize, calls: u32) -> Result<String, Fail> {
    let keys = bytes_of(alloc, row)?;
    let now = Cell::new(0);
    let typing = Typing {
        keys: keys.as_slice(),
        now: &now,
    };
    let clock = Refusing {
        now: &now,
        calls: Cell::new(calls),
    };
    let typed = Typed::new(alloc, typing, clock, most, true);
    told_by(
        alloc,
        PromptEvents::over(alloc, KeyReader::new(alloc, typed), true),
    )
}

/// Pasted texts at a terminal that reports its size in them. A report behind a beginning of the end mark, whose rest
/// follows, is a part of the text.
const REPORTED: &str = "\
\\x1b[200~a\\x1b[5;5Rb\\x1b[201~ => Paste(\"ab\"), Resized { cols: 5, rows: 5 }
\\x1b[200~a\\x1b\\x1b[5;5R[201~b\\x1b[201~ => Paste(\"a  [5;5R[201~b\")
\\x1b[200~a\\x1b[\\x1b[5;5R201~b\\x1b[201~ => Paste(\"a [ [5;5R201~b\")
\\x1b[200~a\\x1b[2\\x1b[5;5R01~b\\x1b[201~ => Paste(\"a [2 [5;5R01~b\")
\\x1b[200~a\\x1b[20\\x1b[5;5R1~b\\x1b[201~ => Paste(\"a [20 [5;5R1~b\")
\\x1b[200~a\\x1b[201\\x1b[5;5R~b\\x1b[201~ => Paste(\"a [201 [5;5R~b\")
\\x1b[200~a\\x1b[20\\x1b[5;5R\\x1b[7;7R1~\\x1b[201~ => Paste(\"a [20 [5;5R1~\"), Resized { cols: 7, rows: 7 }
\\x1b[200~a\\x1b[2\\x1b[5;5R0\\x1b[7;7R1~\\x1b[201~ => Paste(\"a [2 [5;5R01~\"), Resized { cols: 7, rows: 7 }
\\x1b[200~a\\x1b[5;5R\\x1b[20\\x1b[7;7R1~\\x1b[201~ => Paste(\"a [20 [7;7R1~\"), Resized { cols: 5, rows: 5 }
";

#[test]
fn reports_in_a_paste_make_no_mark(rt: HostRuntime) -> Result<(), Fail> {
    for most in [1, 1024] {
        for calls in 0..40 {
            expect_rows(
                rt.alloc(),
                REPORTED,
                |alloc, row| typed(alloc, row, most, calls),
            )?;
        }
    }
    Ok(())
}

/// A Ctrl-C by itself between two pauses ends a pasted text.
const INTERRUPTED: &str = "\
\\x1b[200~cd|\\x03|\\x0d => Paste(\"cd\"), CTRL Char C, Enter
\\x1b[200~c\\x1b[5;5Rd|\\x03| => Paste(\"cd\"), Resized { cols: 5, rows: 5 }, CTRL Char C
\\x1b[200~c\\x1b[20|\\x03|1 => Paste(\"c [20\"), CTRL Char C, Char 1
\\x1b[200~cd\\x03|\\x0d\\x1b[201~ => Paste(\"cd  \")
\\x1b[200~cd|\\x03e|\\x1b[201~ => Paste(\"cd e\")
\\x1b[200~cd|\\x03\\x03|\\x1b[201~ => Paste(\"cd  \")
\\x1b[200~cd|\\x04|\\x1b[201~ => Paste(\"cd \")
";

#[test]
fn an_endless_paste_is_interrupted(rt: HostRuntime) -> Result<(), Fail> {
    for most in [1, 1024] {
        expect_rows(
            rt.alloc(),
            INTERRUPTED,
            |alloc, row| typed(alloc, row, most, u32::MAX),
        )?;
    }
    Ok(())
}

/// Characters that come at once, in several scripts: the eighth and those behind it are one text.
const GATHERED: &str = "\
abcdefghij\\x0d => Char a, Char b, Char c, Char d, Char e, Char f, Char g, Paste(\"hij\"), Enter
éééééééééé| => Char é, Char é, Char é, Char é, Char é, Char é, Char é, Paste(\"ééé\")
日日日日日日日日日日 => Char 日, Char 日, Char 日, Char 日, Char 日, Char 日, Char 日, Paste(\"日日日\")
ж|ж|жж => Char ж, Char ж, Char ж, Char ж
";

#[test]
fn characters_that_come_at_once_are_gathered(rt: HostRuntime) -> Result<(), Fail> {
    expect_rows(
        rt.alloc(),
        GATHERED,
        |alloc, row| typed(alloc, row, 1, u32::MAX),
    )
}

/// Bytes that are at hand at once, and the events of a prompt that lets characters join.
const JOINED: &str = "\
a => Char a
ab => Paste(\"ab\")
a b~ => Paste(\"a b~\")
ab\\x0dcd => Paste(\"ab\"), Enter, Paste(\"cd\")
a\\x01b => Char a, CTRL Char A, Char b
\\xc3\\xa9ab => Paste(\"\u{e9}ab\")
a\\xe6\\x97\\xa5\\xc2\\x85b => Paste(\"a\u{65e5}\"), Char \u{85}, Char b
ab\\x1b[200~cd\\x1b[201~ef => Paste(\"ab\"), Paste(\"cd\"), Paste(\"ef\")
ab\\x1b[70000;5Rcd => Paste(\"ab\"), Paste(\"cd\")
ab\\x1b[7;5R => Paste(\"ab\"), Resized { cols: 5, rows: 7 }
";

/// The same of one that does not.
const APART: &str = "\
ab => Char a, Char b
ab\\x1b[70000;5Rc => Char a, Char b, Char c
";

#[test]
fn characters_at_hand_are_one_text(rt: HostRuntime) -> Result<(), Fail> {
    expect_rows(rt.alloc(), JOINED, |alloc, row| {
        let bytes = bytes_of(alloc, row)?;
        let keys = KeyReader::new(alloc, bytes.as_slice());
        told_by(alloc, PromptEvents::over(alloc, keys, true))
    })?;
    expect_rows(rt.alloc(), APART, |alloc, row| {
        let bytes = bytes_of(alloc, row)?;
        let keys = KeyReader::new(alloc, bytes.as_slice());
        told_by(alloc, PromptEvents::over(alloc, keys, false))
    })
}

/// Pasted texts, and what they are told as in one row and in rows.
const PASTED: &str = "\
\\x1b[200~a\\x0d\\x0ab\\x1b[201~ => Paste(\"a  b\"), Paste(\"a\\\\nb\")
\\x1b[200~\\x0a\\x0d\\x0d\\x0a\\x1b[201~ => Paste(\"    \"), Paste(\"\\\\n\\\\n\\\\n\")
\\x1b[200~a\\x09b\\x00\\x7f\\x1b[201~ => Paste(\"a b  \"), Paste(\"a b  \")
\\x1b[200~\\xe5\\x0d\\xe5\\x8c\\x97\\x1b[201~ => Paste(\"\u{fffd} 北\"), Paste(\"\u{fffd}\\\\n北\")
";

#[test]
fn pasted_texts_have_one_row_or_keep_their_rows(rt: HostRuntime) -> Result<(), Fail> {
    expect_rows(rt.alloc(), PASTED, |alloc, row| {
        let bytes = bytes_of(alloc, row)?;
        let one = KeyReader::new(alloc, bytes.as_slice());
        let rows = KeyReader::new(alloc, bytes.as_slice()).with_pasted(Pasted::Rows);
        let one = told_by(alloc, one)?;
        let rows = told_by(alloc, rows)?;
        Ok(format!(in alloc; "{one}, {rows}")?)
    })
}

/// Keys and a pasted text in which a terminal tells its size.
const TYPED: &[u8] = b"ab\x1b[200~cd\x1b[5;40Re\x1b[201~\r";

/// A refused request is answered by `Memory`, and no byte is lost.
#[test]
fn typed_bytes_are_kept_refused_in_turn(rt: HostRuntime) -> Result<(), Fail> {
    let alloc = rt.alloc();
    let mut told = Vec::with_capacity(alloc, 100)?;
    let typed = Typed::new(alloc, TYPED, rt, 1, false);
    let mut events = PromptEvents::over(alloc, KeyReader::new(alloc, typed), true);
    mark(alloc)?;
    for _ in 0..100 {
        match events.next_event() {
            Ok(Some(event)) => told.push(event)?,
            Ok(None) => break,
            Err(fault) => assert!(rt; fault == TerminalFault::Memory),
        }
    }
    mark(alloc)?;
    let mut texts = String::new(alloc);
    for event in &told {
        texts.push_str(event_text(alloc, event)?.as_str())?;
        texts.push('|')?;
    }
    assert_eq!(rt;
        texts.as_str(),
        "Char a|Char b|Paste(\"cde\")|Resized { cols: 40, rows: 5 }|Enter|"
    );
    Ok(())
}
