//! The two editors: one reads bytes and writes bytes, and the other is told the same keys.

use crate::ends::{Pieces, Recorder, Writes};
use crate::host::MarkedHost;
use crate::trial::Trial;
use std::alloc::Global;
use tw_device::{AnsiTerminal, Answer, Escape, EventSource, Joined, KeyReader, read_line_from};
use tw_input::InputEvent;
use tw_lineedit::{Error, LineEditor};
use tw_terminal::ScriptTerminal;

/// How a reading ended.
#[derive(Drop, PartialEq, Eq)]
pub enum Ending {
    /// With this line, accepted or at the end of the input.
    Line(String),
    /// It was cancelled.
    Cancelled,
    /// The key came that ends the input, and the line was empty.
    EndOfFile,
}

/// Returns how a reading ended. An end of the input that is not that of the bytes is a key's.
fn ended_by(answer: Answer, is_at_end: bool) -> Ending {
    match answer {
        Answer::Line(line) => Ending::Line(line),
        Answer::Cancelled => Ending::Cancelled,
        Answer::End(line) if is_at_end => Ending::Line(line),
        Answer::End(_) => Ending::EndOfFile,
    }
}

/// Reads lines from the bytes of a trial, which come in pieces, up to their end, and keeps what is written.
pub fn read_bytes(
    alloc: Global,
    trial: &Trial,
    writes: &mut Writes,
) -> Result<Vec<Ending>, anyhow::Error> {
    let mut host = trial.host(alloc)?;
    let pieces = Pieces::new(trial.bytes.as_slice(), trial.cuts);
    let keys = KeyReader::new(alloc, pieces).with_escape(Escape::Waits);
    let terminal = AnsiTerminal::new(alloc, Recorder(writes), trial.size);
    read_typed_lines(alloc, trial, &mut Joined::new(keys, terminal), &mut host)
}

/// Reads lines up to the end of the bytes.
fn read_typed_lines(
    alloc: Global,
    trial: &Trial,
    device: &mut Joined<KeyReader<Pieces<'_>>, AnsiTerminal<Recorder<'_>>>,
    host: &mut MarkedHost,
) -> Result<Vec<Ending>, anyhow::Error> {
    trial.fill(alloc, host)?;
    let mut endings = Vec::new(alloc);
    for _ in 0..u64::MAX {
        let answer = read_line_from(alloc, device, host, trial.prompt)?;
        endings.push(ended_by(answer, device.source.is_at_end()))?;
        if device.source.is_at_end() {
            break;
        }
    }
    Ok(endings)
}

/// Returns the keys that the bytes of a trial are, all at once.
pub fn keys_of(alloc: Global, trial: &Trial) -> Result<Vec<InputEvent>, anyhow::Error> {
    let bytes = trial.bytes.as_slice();
    let mut keys = KeyReader::new(alloc, bytes).with_escape(Escape::Waits);
    all_events(alloc, &mut keys)
}

/// Returns the events up to the end of the bytes.
fn all_events(
    alloc: Global,
    keys: &mut KeyReader<&[u8]>,
) -> Result<Vec<InputEvent>, anyhow::Error> {
    let mut events = Vec::new(alloc);
    for _ in 0..u64::MAX {
        match keys.next_event()? {
            Some(event) => events.push(event)?,
            None => break,
        }
    }
    Ok(events)
}

/// Reads `count` lines of a trial from its keys, which a terminal has that keeps the batches.
pub fn read_keys(
    alloc: Global,
    trial: &Trial,
    count: usize,
    terminal: &mut ScriptTerminal,
) -> Result<Vec<Ending>, anyhow::Error> {
    let mut host = trial.host(alloc)?;
    read_lines(alloc, trial, count, terminal, &mut host)
}

/// Reads `count` lines, each with an editor of its own.
fn read_lines(
    alloc: Global,
    trial: &Trial,
    count: usize,
    terminal: &mut ScriptTerminal,
    host: &mut MarkedHost,
) -> Result<Vec<Ending>, anyhow::Error> {
    trial.fill(alloc, host)?;
    let mut endings = Vec::new(alloc);
    for _ in 0..count {
        let mut editor = LineEditor::new(alloc, terminal)?;
        let answer = read_line(&mut editor, host, trial.prompt);
        endings.push(ended_with(answer)?)?;
    }
    Ok(endings)
}

/// Reads a line under a prompt.
fn read_line(
    editor: &mut LineEditor<'_, ScriptTerminal>,
    host: &mut MarkedHost,
    prompt: &str,
) -> Result<Option<String>, Error> {
    editor.set_prompt(prompt)?;
    editor.read_line(host)
}

/// Returns how a reading ended, which was not refused for another reason.
fn ended_with(answer: Result<Option<String>, Error>) -> Result<Ending, anyhow::Error> {
    let ending = match answer {
        Ok(Some(line)) => Ending::Line(line),
        Ok(None) => Ending::Cancelled,
        Err(Error::EndOfFile) => Ending::EndOfFile,
        Err(other) => return Err(other.into()),
    };
    Ok(ending)
}
