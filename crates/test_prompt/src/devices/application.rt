//! The functions of an application, asked while a line is read.

use ecma_terminal::{EcmaTerminal, TerminalCell};
use std::alloc::{AllocError, Global};
use std::cell::Cell;
use std::test::Fail;
use test_cases::{bytes_of, expect_rows, hold};
use tw_device::{AnsiTerminal, Answer, DeviceTerminal, Joined, KeyReader, Pasted};
use tw_key_parts::KeyPart;
use tw_line::BasicHistory;
use tw_prompt::{Application, read_with};
use tw_prompt_host::{PreparedHost, PreparedLines, PromptHost, Rows, Validation};
use tw_sparing::PatientTerminal;
use tw_surface::ColorAttribute;
use tw_terminal::ScreenSize;

/// The size of the screen.
pub const SIZE: ScreenSize = ScreenSize { rows: 8, cols: 12 };

/// An application whose lines end with a semicolon. After its second event it has news.
#[derive(Drop)]
struct Clerk {
    events: u64,
}

impl Application for Clerk {
    fn validate(&self, alloc: Global, line: &str) -> Result<Validation, AllocError> {
        if line.ends_with(';') {
            return Ok(Validation::Valid);
        }
        Ok(Validation::Incomplete(String::from_str(alloc, "no end")?))
    }

    fn news(&mut self, alloc: Global) -> Result<String, AllocError> {
        self.events = self.events.saturating_add(1);
        String::from_str(alloc, if self.events == 2 { "one\ntwo\n" } else { "" })
    }
}

/// An application whose functions are called so often, and then fail once.
#[derive(Drop)]
struct Failing {
    calls: Cell<u64>,
}

impl Failing {
    /// Counts a call.
    fn count(&self) -> Result<(), AllocError> {
        let calls = self.calls.get();
        self.calls.set(calls.saturating_sub(1));
        if calls == 1 {
            return Err(AllocError);
        }
        Ok(())
    }
}

impl Application for Failing {
    fn validate(&self, _alloc: Global, _line: &str) -> Result<Validation, AllocError> {
        self.count()?;
        Ok(Validation::Valid)
    }

    fn news(&mut self, alloc: Global) -> Result<String, AllocError> {
        self.count()?;
        Ok(String::new(alloc))
    }
}

/// An application that has a thousand lines of news after its second event.
#[derive(Drop)]
struct Crier {
    events: u64,
}

impl Application for Crier {
    fn news(&mut self, alloc: Global) -> Result<String, AllocError> {
        self.events = self.events.saturating_add(1);
        let mut news = String::new(alloc);
        if self.events == 2 {
            for number in 1..=1000 {
                news.push_str(format!(in alloc; "{number}\n")?.as_str())?;
            }
        }
        Ok(news)
    }
}

/// Returns the rows of a screen that receives these bytes, separated by `/`, without the blanks at their ends.
pub fn rows_shown(alloc: Global, bytes: &[u8]) -> Result<String, Fail> {
    let blank = TerminalCell::blank(ColorAttribute::Default);
    let mut terminal = EcmaTerminal::new(alloc, SIZE.rows, SIZE.cols, blank).or(Err("no size"))?;
    terminal.receive_all(bytes).or(Err("refused bytes"))?;
    let mut shown = String::new(alloc);
    for row in 0..SIZE.rows {
        let mut text = String::new(alloc);
        for col in 0..SIZE.cols {
            let cell = terminal.cell(row, col).ok_or("no cell")?;
            let bytes = cell.number.to_be_bytes();
            let unused = bytes.iter().take_while(|byte| **byte == 0).count();
            text.push_str(str::from_utf8(&bytes[unused..]).or(Err("no text"))?)?;
        }
        shown.push_str(text.as_str().trim_end())?;
        shown.push('/')?;
    }
    Ok(String::from_str(alloc, shown.as_str().trim_end_matches('/'))?)
}

/// Reads a line with the application.
fn read_in<T: DeviceTerminal, K: KeyPart>(
    alloc: Global,
    bytes: &[u8],
    terminal: T,
    host: &mut PromptHost<PreparedHost, BasicHistory, K, PreparedLines>,
) -> Result<String, Fail>
where
    T: Drop,
{
    let keys = KeyReader::new(alloc, bytes).with_pasted(Pasted::Rows);
    let mut device = Joined::new(keys, terminal);
    let mut clerk = Clerk { events: 0 };
    match read_with(alloc, &mut clerk, &mut device, host, "> ")? {
        Answer::Line(line) => Ok(line),
        _ => Err(Fail::from("no line")),
    }
}

/// Reads a line with the application in a prompt that shows rows.
fn read_at<T: DeviceTerminal>(alloc: Global, bytes: &[u8], terminal: T) -> Result<String, Fail>
where
    T: Drop,
{
    let continuation = String::from_str(alloc, "- ")?;
    let mut host = PromptHost::new(alloc, "> ", SIZE.cols)?
        .with_host(PreparedHost::new(alloc))
        .with_validator(PreparedLines::new(alloc));
    host.rows = Rows::Several(continuation);
    read_in(alloc, bytes, terminal, &mut host)
}

/// Reads a line at a terminal that paints all, and at one that is sent what differs. Returns the line, and what both
/// screens show then.
fn read_shown(alloc: Global, typed: &str) -> Result<String, Fail> {
    let bytes = bytes_of(alloc, typed)?;
    let mut taken = Vec::new(alloc);
    let line = {
        let terminal = AnsiTerminal::new(alloc, &mut taken, SIZE);
        read_at(alloc, bytes.as_slice(), terminal)?
    };
    let shown = rows_shown(alloc, taken.as_slice())?;
    taken.clear();
    {
        let terminal = PatientTerminal::new(alloc, &mut taken, SIZE);
        let _same = read_at(alloc, bytes.as_slice(), terminal)?;
    }
    let patient = rows_shown(alloc, taken.as_slice())?;
    hold(patient == shown, patient.as_str(), shown.as_str())?;
    Ok(format!(in alloc; "{line:?} {shown}")?)
}

/// Reads a line with an application, and returns what a screen shows then, with a mark where it would go on.
fn shown_with<A: Application>(
    alloc: Global,
    application: &mut A,
    typed: &[u8],
) -> Result<String, Fail> {
    let mut host = PromptHost::new(alloc, "> ", SIZE.cols)?
        .with_host(PreparedHost::new(alloc))
        .with_validator(PreparedLines::new(alloc));
    let mut taken = Vec::new(alloc);
    {
        let terminal = AnsiTerminal::new(alloc, &mut taken, SIZE);
        let mut device = Joined::new(KeyReader::new(alloc, typed), terminal);
        let _ended = read_with(alloc, application, &mut device, &mut host, "> ");
    }
    taken.push(b'#')?;
    rows_shown(alloc, taken.as_slice())
}

/// Reads a line with an application whose call of this number fails.
fn failing_at(alloc: Global, number: &str) -> Result<String, Fail> {
    let calls = number.parse::<u64>().or(Err("no number"))?;
    let mut failing = Failing {
        calls: Cell::new(calls),
    };
    shown_with(alloc, &mut failing, b"ab\r")
}

/// Whichever call fails, the last painting stays, and what comes next begins in the row below it.
const FAILED: &str = r"
1 => #
2 => >/#
3 => >/#
4 => > a/#
5 => > a/#
6 => > ab/#
";

/// Reads a line with an application that has much to tell.
fn told_above(alloc: Global, typed: &str) -> Result<String, Fail> {
    let bytes = bytes_of(alloc, typed)?;
    shown_with(alloc, &mut Crier { events: 0 }, bytes.as_slice())
}

/// The last lines stand above the line.
const CRIED: &str = r"
a\x0d => > a/#
ab\x0d => 995/996/997/998/999/1000/> ab/#
abc\x0d => 995/996/997/998/999/1000/> abc/#
";

#[test]
fn a_function_that_fails_closes_the_line(rt: HostRuntime) -> Result<(), Fail> {
    expect_rows(rt.alloc(), FAILED, failing_at)
}

#[test]
fn a_thousand_lines_stand_above_the_line(rt: HostRuntime) -> Result<(), Fail> {
    expect_rows(rt.alloc(), CRIED, told_above)
}

/// News stand above the line; Enter begins a row in a line that has no end; a pasted text keeps its rows.
const READ: &str = r#"
;\x0d => ";" > ;
ab;\x0d => "ab;" one/two/> ab;
a\x0d;\x0d => "a\\n;" one/two/> a/- ;
\x0d;\x0d => "\\n;" one/two/>/- ;
abcdefghij\x0d;\x0d => "abcdefghij\\n;" one/two/> abcdefghij//- ;
\x1b[200~a\x0d\x0ab\x0ac\x09;\x1b[201~\x0d => "a\\nb\\nc ;" > a/- b/- c ;
\x1b[200~a\x0d;\x1b[201~b;\x0d => "a\\n;b;" one/two/> a/- ;b;
"#;

/// Returns how many clearings are sent: one a painting, one more above which news stand, and the closing one.
fn clearings_sent(alloc: Global, typed: &str) -> Result<String, Fail> {
    let bytes = bytes_of(alloc, typed)?;
    let mut taken = Vec::new(alloc);
    {
        let terminal = AnsiTerminal::new(alloc, &mut taken, SIZE);
        let _line = read_at(alloc, bytes.as_slice(), terminal)?;
    }
    let sent = str::from_utf8(taken.as_slice()).or(Err("no text"))?;
    Ok(format!(in alloc; "{}", sent.split("\x1b[J").count().saturating_sub(1))?)
}

/// The first painting, one an event, and the closing.
const CLEARINGS: &str = r"
;\x0d => 4
a;\x0d => 6
ab;\x0d => 7
";

#[test]
fn an_application_s_line_is_painted_once_an_event(rt: HostRuntime) -> Result<(), Fail> {
    expect_rows(rt.alloc(), CLEARINGS, clearings_sent)
}

#[test]
fn an_application_is_asked_between_events(rt: HostRuntime) -> Result<(), Fail> {
    expect_rows(rt.alloc(), READ, read_shown)
}
