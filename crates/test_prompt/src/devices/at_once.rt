//! Lines whose keys come at once.

use super::application::{SIZE, rows_shown};
use std::alloc::Global;
use std::test::Fail;
use test_cases::expect_rows;
use tw_device::{AnsiTerminal, Answer, DeviceTerminal, Joined, KeyReader, read_line_from};
use tw_lineedit::{CompletionCandidate, Error, LineEditBuffer, LineEditorHost, NopLineEditorHost};
use tw_prompt_host::PreparedHost;
use tw_sparing::PatientTerminal;
use tw_terminal::ScreenSize;

/// What a prompt of two columns is sent as, at first.
const FIRST_PROMPT: &str = "\r\x1b[K\x1b[C\x1b[J\r\x1b[0m> \r\x1b[2C";

/// The most bytes of a move, and of what a line is closed with.
const MOVES: usize = 16;

/// Reads a line whose keys come at once.
fn read_typed<T: DeviceTerminal, H: LineEditorHost>(
    alloc: Global,
    terminal: T,
    typed: &str,
    host: &mut H,
) -> Result<Answer, Error>
where
    T: Drop,
{
    let mut device = Joined::new(KeyReader::new(alloc, typed.as_bytes()), terminal);
    read_line_from(alloc, &mut device, host, "> ")
}

/// Reads a line whose keys come at once, and returns it, with the number of bytes sent if one painting has fewer.
fn read_at_once(alloc: Global, typed: &str) -> Result<String, Fail> {
    let mut taken = Vec::new(alloc);
    let mut host = NopLineEditorHost::new(alloc);
    let size = ScreenSize { rows: 24, cols: 80 };
    let answer = {
        let terminal = PatientTerminal::new(alloc, &mut taken, size);
        read_typed(alloc, terminal, typed, &mut host)?
    };
    let Answer::Line(line) = answer else {
        return Err(Fail::from("no line"));
    };
    let count = taken.len();
    if count > FIRST_PROMPT.len() + line.len() + MOVES {
        return Ok(format!(in alloc; "{line}, {count} bytes")?);
    }
    Ok(line)
}

const TYPED: &str = r"
echo hello\r => echo hello
echo hello\u{1}\u{b}12\u{2}\u{2}3\r => 312
";

#[test]
fn keys_that_come_at_once_are_sent_as_one_line(rt: HostRuntime) -> Result<(), Fail> {
    expect_rows(rt.alloc(), TYPED, read_at_once)
}

/// Reads a line whose keys come at once, and returns how that ends. The line `ab` is completed by what does not fit.
fn read_to_end<T: DeviceTerminal>(
    alloc: Global,
    terminal: T,
    typed: &str,
) -> Result<&'static str, Fail>
where
    T: Drop,
{
    let mut host = PreparedHost::new(alloc);
    host.asked = LineEditBuffer::new(alloc, "ab", 2)?;
    host.candidates.push(CompletionCandidate {
        range: 3..4,
        text: String::from_str(alloc, "abc")?,
    })?;
    match read_typed(alloc, terminal, typed, &mut host) {
        Ok(Answer::End(_)) => Ok("end"),
        Err(Error::CandidateDoesNotFit) => Ok("misfit"),
        _ => Err(Fail::from("another answer")),
    }
}

/// Reads a line at the terminal of a row, `KIND KEYS`. Returns how that ends, and what is shown then, with a `_` typed
/// behind it.
fn read_refused(alloc: Global, row: &str) -> Result<String, Fail> {
    let (kind, typed) = row.split_once(' ').ok_or("no keys")?;
    let mut taken = Vec::new(alloc);
    let end = match kind {
        "ansi" => read_to_end(alloc, AnsiTerminal::new(alloc, &mut taken, SIZE), typed)?,
        _ => read_to_end(alloc, PatientTerminal::new(alloc, &mut taken, SIZE), typed)?,
    };
    taken.push(b'_')?;
    let shown = rows_shown(alloc, taken.as_slice())?;
    Ok(format!(in alloc; "{end} {shown}")?)
}

/// What was typed before the end is shown, and the cursor stands below it, whatever is typed behind.
const REFUSED: &str = r"
ansi ab\u{4} => end > ab/_
ansi ab\u{4}ls\r => end > ab/_
ansi ab\tls\r => misfit > ab/_
patient ab\u{4} => end > ab/_
patient ab\u{4}ls\r => end > ab/_
patient ab\tls\r => misfit > ab/_
";

#[test]
fn what_was_painted_is_sent_whatever_ends_the_line(rt: HostRuntime) -> Result<(), Fail> {
    expect_rows(rt.alloc(), REFUSED, read_refused)
}
