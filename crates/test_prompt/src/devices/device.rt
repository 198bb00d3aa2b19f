//! Lines that are read at a device.

ghost use Rattle.std.specs.Prelude.{◌≡◌, ◌==◌, length, not};

use std::alloc::{AllocError, Global};
use std::io;
use std::io::Read;
use std::test::Fail;
use test_cases::expect_rows;
use tw_device::{
    AnsiTerminal, Answer, Escape, EventLog, EventSource, Joined, KeyReader, SourceState,
    read_line_from,
};
use tw_input::{InputEvent, KeyCode, KeyEvent, Modifiers};
use tw_lineedit::{Error, NopLineEditorHost};
use tw_terminal::{ScreenSize, Terminal, TerminalFault};

/// A source of characters, where CR is Enter and `~` a screen of 10 rows and 40 columns. It refuses one call.
#[derive(Drop)]
struct Typed<'a> {
    characters: &'a [u8],
    asked: usize,
    refused_call: usize,
    state: SourceState,
    told: EventLog,
}

impl<'a> Typed<'a> {
    /// Creates a source that refuses the call of this number, counted from 1.
    fn new(characters: &'a [u8], refused_call: usize) -> Self {
        Typed {
            characters,
            asked: 0,
            refused_call,
            state: SourceState::Going,
            told: EventLog::new(),
        }
    }

    /// Takes the next character, or refuses.
    fn answer(&mut self) -> Result<Option<InputEvent>, TerminalFault>
        ensures { self.new.told ≡ self.old.told }
    {
        self.asked = self.asked.saturating_add(1);
        if self.asked == self.refused_call {
            return Err(TerminalFault::Device);
        }
        let Some((first, rest)) = self.characters.split_first() else {
            return Ok(None);
        };
        self.characters = rest;
        Ok(Some(event_of(*first)))
    }
}

/// Returns the event of a character.
fn event_of(character: u8) -> InputEvent {
    let key = match character {
        b'~' => return InputEvent::Resized { cols: 40, rows: 10 },
        b'\r' => KeyCode::Enter,
        other => KeyCode::Char(char::from(other)),
    };
    InputEvent::Key(KeyEvent {
        key,
        modifiers: Modifiers::NONE,
    })
}

impl EventSource for Typed<'_> {
    ghost told = { λ it. it.told };

    ghost state = { λ it. it.state };

    ghost at_hand = { λ it. not (length it.characters.now == 0) };

    fn next_event(&mut self) -> Result<Option<InputEvent>, TerminalFault> {
        let answer = self.answer();
        self.told.note(&answer);
        self.state = SourceState::after(&answer);
        answer
    }

    fn has_at_hand(&self) -> bool {
        !self.characters.is_empty()
    }
}

/// A reader that gives a few bytes at a time.
#[derive(Drop)]
struct Pieces<'a> {
    bytes: &'a [u8],
    step: usize,
}

impl Read for Pieces<'_> {
    fn read(&mut self, buf: &mut [u8]) -> io::Result<usize> {
        let count = self.step.min(buf.len()).min(self.bytes.len());
        let (now, later) = self.bytes.split_at(count);
        buf[..count].copy_from_slice(now);
        self.bytes = later;
        Ok(count)
    }
}

/// Returns a terminal that writes to memory.
fn terminal(alloc: Global) -> AnsiTerminal<Vec<u8>> {
    AnsiTerminal::new(alloc, Vec::new(alloc), ScreenSize { rows: 24, cols: 80 })
}

/// Formats the answer of a reading.
fn answer_text(alloc: Global, answer: &Result<Answer, Error>) -> Result<String, AllocError> {
    match answer {
        Ok(Answer::Line(line)) => format!(in alloc; "line {line}"),
        Ok(Answer::Cancelled) => String::from_str(alloc, "cancelled"),
        Ok(Answer::End(line)) => format!(in alloc; "end {line}"),
        Err(Error::Terminal(_)) => String::from_str(alloc, "refused"),
        Err(_) => String::from_str(alloc, "another error"),
    }
}

/// Reads lines from a source of characters, `REFUSED COUNT CHARACTERS`, and returns the answers, with the size of the
/// terminal if `is_sized`.
fn typed_text(alloc: Global, arguments: &str, is_sized: bool) -> Result<String, Fail> {
    let (refused, rest) = arguments.split_once(' ').ok_or("no count")?;
    let (count, characters) = rest.split_once(' ').ok_or("no characters")?;
    let mut host = NopLineEditorHost::new(alloc);
    let source = Typed::new(characters.as_bytes(), refused.parse()?);
    let mut device = Joined::new(source, terminal(alloc));
    let mut output = String::new(alloc);
    for number in 0..count.parse()? {
        device.terminal = terminal(alloc);
        let answer = read_line_from(alloc, &mut device, &mut host, "> ");
        let answer = answer_text(alloc, &answer)?;
        let parting = if number == 0 { "" } else { "; " };
        write!(output, "{parting}{answer}")?;
        if is_sized {
            let size = device.get_screen_size()?;
            write!(output, " {}x{}", size.cols, size.rows)?;
        }
    }
    Ok(output)
}

/// Reads a line from bytes in pieces of `step`. `new` is a reader with the default for a lone ESC.
fn line_of(alloc: Global, kind: &str, bytes: &[u8], step: usize) -> Result<String, Fail> {
    let mut host = NopLineEditorHost::new(alloc);
    let keys = KeyReader::new(alloc, Pieces { bytes, step });
    let keys = match kind {
        "new" => keys,
        "waits" => keys.with_escape(Escape::Waits),
        _ => keys.with_escape(Escape::AtOnce),
    };
    let mut device = Joined::new(keys, terminal(alloc));
    let answer = read_line_from(alloc, &mut device, &mut host, "> ");
    Ok(answer_text(alloc, &answer)?)
}

/// Reads a line in pieces of each size, `FIRST LAST BYTES`, and returns the answer, and each that differs.
fn lines_of(alloc: Global, kind: &str, arguments: &str) -> Result<String, Fail> {
    let (first, rest) = arguments.split_once(' ').ok_or("no last size")?;
    let (last, bytes) = rest.split_once(' ').ok_or("no bytes")?;
    let first = first.parse()?;
    let last: usize = last.parse()?;
    let usual = line_of(alloc, kind, bytes.as_bytes(), first)?;
    let mut output = usual.clone()?;
    for step in first..=last {
        let answer = line_of(alloc, kind, bytes.as_bytes(), step)?;
        if answer != usual {
            write!(output, ", but {answer} in pieces of {step}")?;
        }
    }
    Ok(output)
}

/// Reads a line after arrows to the left, of three bytes each, in one piece: `COUNT KEYS`.
fn line_after_arrows(alloc: Global, arguments: &str) -> Result<String, Fail> {
    let (count, keys) = arguments.split_once(' ').ok_or("no keys")?;
    let mut typed = "\x1b[D".repeat(alloc, count.parse()?)?;
    typed.push_str(keys)?;
    line_of(alloc, "at_once", typed.as_bytes(), typed.len())
}

/// Runs `typed REFUSED COUNT CHARACTERS`, `sized REFUSED COUNT CHARACTERS`, `arrows COUNT KEYS`, or `new`, `waits` or
/// `at_once` with `FIRST LAST BYTES`.
fn reading(alloc: Global, command: &str) -> Result<String, Fail> {
    let (word, rest) = command.split_once(' ').ok_or("no word")?;
    match word {
        "typed" => typed_text(alloc, rest, false),
        "sized" => typed_text(alloc, rest, true),
        "arrows" => line_after_arrows(alloc, rest),
        kind => lines_of(alloc, kind, rest),
    }
}

const READINGS: &str = r"
// a source of characters that refuses a call, by its number
typed 0 2 one\rtwo => line one; end two
typed 2 2 ab\r => refused; line b
sized 0 1 a~b\r => line ab 40x10

// keys and a pasted text are the same in pieces of any size
new 1 3 aéb\u{2}\u{7f}c\r => line acb
new 100 100 aéb\u{2}\u{7f}c\r => line acb
new 2 3 \e[0000200;1~one\e[201 two\e[201~\e[201~!\r => line one [201 two!
new 5 5 \e[0000200;1~one\e[201 two\e[201~\e[201~!\r => line one [201 two!
new 100 100 \e[0000200;1~one\e[201 two\e[201~\e[201~!\r => line one [201 two!

// an ESC that ends a full read waits
arrows 400 a\u{2}b\r => line ba

// what a terminal answers is not typed: colors, names, and a mouse in three bytes
waits 1 31 a\e]11;rgb:1e1e/1e1e/1e1e\e\\b\e]11;rgb:ffff/ffff/ffff\u{7}c\r => line abc
waits 1 31 a\eP>|XTerm(390)\e\\b\eP!|00000000\e\\c\r => line abc
waits 1 15 a\e[M !!b\e[M#!!c\r => line abc

// an arrow behind an ESC has Alt
waits 1 11 ab cd\e\e[Dx\r => line ab xcd
waits 1 11 ab cd\e\eODx\r => line ab xcd

// a string without an end swallows no Enter, and Alt with what begins a string is a key
waits 1 15 a\e]11;rgb:1e1e\rb\r => line a
waits 1 11 a\e]b\ePc\e_Gd\r => line abcGd

// a lone ESC waits if its owner chose so
waits 1 1 a b\ebc\r => line a cb
at_once 1 1 a b\ebc\r => line a bbc
";

#[test]
fn lines_are_read(rt: HostRuntime) -> Result<(), Fail> {
    expect_rows(rt.alloc(), READINGS, reading)
}
