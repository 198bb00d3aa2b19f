//! Readings of a line with requests for memory refused, beside the same readings with memory.

use crate::case::Case;
use crate::cases::hold;
use crate::events::events_named;
use crate::marks::mark_if;
use crate::told::{answer_text, batches_text};
use crate::watched::{Seen, Watched};
use std::alloc::{AllocError, Global};
use std::cell::Cell;
use std::rc::Rc;
use std::test::Fail;
use tw_lineedit::{Error, LineEditor, LineEditorHost};
use tw_surface::{Change, ColorAttribute};
use tw_terminal::{ScriptTerminal, TerminalFault};

/// How a case is played: how many of its events come, which call of the terminal fails, and whether marks stand round
/// its last reading.
#[derive(Clone, Copy)]
struct Play {
    events: usize,
    fault: Option<(usize, usize)>,
    marked: bool,
}

/// What an editor has at the end of the last reading of a case: the answer, the line, how far the terminal had come
/// before and after the reading, and the number of the refusal of one more.
#[derive(Drop)]
struct End {
    answer: Result<Option<String>, Error>,
    line: String,
    before: Seen,
    after: Seen,
    next: Option<u8>,
}

/// The last reading of a case, and the terminal at last.
#[derive(Drop)]
struct LastReading {
    end: End,
    terminal: ScriptTerminal,
}

impl LastReading {
    /// Returns the batches that the terminal took.
    fn batches(&self) -> &[Vec<Change>] {
        self.terminal
            .batches()
            .get(self.end.before.taken..self.end.after.taken)
            .unwrap_or(&[])
    }

    /// Returns how often the terminal was flushed.
    fn flushes(&self) -> usize {
        self.end
            .after
            .flushes
            .saturating_sub(self.end.before.flushes)
    }

    /// Returns how often the terminal was asked for its size.
    fn sizes(&self) -> usize {
        self.end.after.sizes.saturating_sub(self.end.before.sizes)
    }

    /// Returns how many events were taken.
    fn polled(&self) -> usize {
        self.end.before.left.saturating_sub(self.end.after.left)
    }

    /// Returns whether another reading came to the same.
    fn is_as(&self, alloc: Global, other: &LastReading) -> Result<bool, AllocError> {
        let answer = answer_text(alloc, &self.end.answer)?;
        let wanted = answer_text(alloc, &other.end.answer)?;
        Ok(
            answer == wanted
                && self.batches() == other.batches()
                && self.end.before == other.end.before
                && self.end.after == other.end.after,
        )
    }
}

/// Reads a line of a case, with marks round the call where these are wanted.
fn answer_of<H: LineEditorHost>(
    alloc: Global,
    case: &Case<'_>,
    host: &mut H,
    marked: bool,
    editor: &mut LineEditor<'_, Watched>,
) -> Result<Result<Option<String>, Error>, AllocError> {
    mark_if(alloc, marked)?;
    let answer = editor.read_line_with_optional_initial_value(host, case.initial);
    mark_if(alloc, marked)?;
    Ok(answer)
}

/// Plays a case with one editor on the terminal.
fn end_of<H: LineEditorHost>(
    alloc: Global,
    case: &Case<'_>,
    host: &mut H,
    marked: bool,
    terminal: &mut Watched,
) -> Result<End, Fail> {
    let seen = terminal.seen()?;
    let mut editor = LineEditor::new(alloc, terminal)?;
    editor.set_prompt(case.prompt)?;
    for _ in 1..case.readings {
        let _ = editor.read_line(host);
    }
    last_end(alloc, case, host, marked, &mut editor, &seen)
}

/// Plays the last reading of a case, and one more.
fn last_end<H: LineEditorHost>(
    alloc: Global,
    case: &Case<'_>,
    host: &mut H,
    marked: bool,
    editor: &mut LineEditor<'_, Watched>,
    seen: &Rc<Cell<Seen>>,
) -> Result<End, Fail> {
    let before = seen.get();
    let answer = answer_of(alloc, case, host, marked, editor)?;
    let after = seen.get();
    let line = String::from_str(alloc, editor.get_line_and_cursor().0)?;
    let next = editor.read_line(host).err().map(|error| error.number());
    Ok(End {
        answer,
        line,
        before,
        after,
        next,
    })
}

/// Plays a case up to its last reading, and that one.
fn last_reading<H: LineEditorHost>(
    alloc: Global,
    case: &Case<'_>,
    host: &mut H,
    play: Play,
) -> Result<Box<LastReading>, Fail> {
    let mut terminal = watched_terminal(alloc, case, play)?;
    let end = end_of(alloc, case, host, play.marked, &mut terminal)?;
    let terminal = terminal.into_script();
    Ok(Box::new(alloc, LastReading { end, terminal })?)
}

/// Returns the terminal on which a case is played.
fn watched_terminal(alloc: Global, case: &Case<'_>, play: Play) -> Result<Watched, Fail> {
    Ok(Watched::new(alloc, played_terminal(alloc, case, play)?)?)
}

/// Returns the terminal of a case, with the events that come and the fault.
fn played_terminal(alloc: Global, case: &Case<'_>, play: Play) -> Result<ScriptTerminal, Fail> {
    let mut events = events_named(alloc, case.events)?;
    events.truncate(play.events);
    let mut script = ScriptTerminal::new(alloc, case.size, events);
    if let Some((call, taken)) = play.fault {
        script.fail_at(call, taken);
    }
    Ok(script)
}

/// Returns the batches without a clearing of the screen after them.
fn without_clearing(batches: &[Vec<Change>]) -> &[Vec<Change>] {
    match batches {
        [before @ .., last]
            if last.as_slice() == [Change::ClearScreen(ColorAttribute::Default)].as_slice() => {
            before
        }
        _ => batches,
    }
}

/// Returns the paintings of a refused reading, and its closing batch where it was rendered: the terminal was flushed
/// then.
fn parts_of(refused: &LastReading) -> (&[Vec<Change>], Option<&[Change]>) {
    let batches = refused.batches();
    if refused.flushes() == 0 {
        return (batches, None);
    }
    match batches {
        [] => (batches, None),
        [begun @ .., closing] => (begun, Some(closing.as_slice())),
    }
}

/// Returns true if a refused reading was stopped where the events of another one end: it painted the same, and closed
/// likewise. It may have taken one event more, and cleared the screen for that.
fn stops_at(refused: &LastReading, cut: &LastReading) -> bool {
    let (begun, closing) = parts_of(refused);
    let Some((cut_closing, cut_begun)) = cut.batches().split_last() else {
        return false;
    };
    let painted = begun == cut_begun || without_clearing(begun) == cut_begun;
    let closed = match closing {
        Some(closing) => closing == cut_closing.as_slice(),
        None => refused.flushes() == 0,
    };
    let more = refused.polled().saturating_sub(cut.polled());
    painted && closed && more <= 1 && cut.polled() <= refused.polled()
}

/// Tests that a reading was refused for memory, or by the terminal if a call of it was to fail.
fn hold_refusal(alloc: Global, case: &Case<'_>, refused: &LastReading) -> Result<(), Fail> {
    let answer = answer_text(alloc, &refused.end.answer)?;
    let is_refusal = match &refused.end.answer {
        Err(Error::Memory(_)) => refused.flushes() == 1,
        Err(Error::Terminal(TerminalFault::Memory)) => true,
        Err(Error::Terminal(TerminalFault::Device)) => case.fault.is_some(),
        _ => false,
    };
    hold(is_refusal, case.events, answer.as_str())?;
    hold(refused.end.next != Some(2), case.events, "the mode is left")
}

/// Tests that what the terminal took of a refused reading is a beginning of what it takes with memory.
fn hold_beginning(
    case: &Case<'_>,
    refused: &LastReading,
    with_memory: &LastReading,
) -> Result<(), Fail> {
    let (begun, closing) = parts_of(refused);
    let is_beginning = with_memory.batches().starts_with(begun);
    hold(is_beginning, case.events, "other paintings")?;
    if begun.is_empty() {
        let is_closed = closing.is_none() && refused.flushes() == 1;
        return hold(is_closed, case.events, "nothing was painted");
    }
    let paintings = with_memory.batches().len().saturating_sub(1);
    let is_whole = closing.is_some() || case.fault.is_some() || begun.len() == paintings;
    hold(is_whole, case.events, "no closing batch")
}

/// Tests the line of a refused reading without events: it is empty if the initial value was refused, which comes before
/// the terminal is asked for its size, and else the initial value.
fn hold_line(case: &Case<'_>, refused: &LastReading) -> Result<(), Fail> {
    if !case.events.is_empty() {
        return Ok(());
    }
    if refused.sizes() > 0 {
        let is_whole = refused.end.line.as_str() == case.initial.unwrap_or("");
        return hold(is_whole, case.events, refused.end.line.as_str());
    }
    let is_memory = matches!(refused.end.answer, Err(Error::Memory(_)));
    let is_untouched = refused.end.line.is_empty() && refused.batches().is_empty();
    hold(
        is_memory && is_untouched,
        case.events,
        refused.end.line.as_str(),
    )
}

/// Tests that a refused reading was stopped where a reading with memory ends that has all of the events or fewer.
fn hold_stop<H: LineEditorHost>(
    alloc: Global,
    case: &Case<'_>,
    host: &mut H,
    refused: &LastReading,
) -> Result<(), Fail> {
    let all = events_named(alloc, case.events)?.len();
    let mut is_found = false;
    for events in 0..=all {
        let play = Play {
            events,
            fault: None,
            marked: false,
        };
        let cut = last_reading(alloc, case, host, play)?;
        is_found = is_found || stops_at(refused, &cut);
    }
    let shown = batches_text(alloc, refused.batches())?;
    hold(is_found, case.events, shown.as_str())
}

/// Tests a refused reading beside the one with memory.
fn hold_refused<H: LineEditorHost>(
    alloc: Global,
    case: &Case<'_>,
    host: &mut H,
    refused: &LastReading,
    with_memory: &LastReading,
) -> Result<(), Fail> {
    hold_refusal(alloc, case, refused)?;
    hold_beginning(case, refused, with_memory)?;
    hold_line(case, refused)?;
    if parts_of(refused).0.is_empty() {
        return Ok(());
    }
    hold_stop(alloc, case, host, refused)
}

/// Reads the last line of a case between marks, and returns what it answers with memory. Fails unless it comes to the
/// same as with memory, or is refused: then what the terminal took is a beginning of what it takes with memory, the
/// closing batch of the last painting follows, and the editor can read again.
pub fn read_refused<H: LineEditorHost>(
    alloc: Global,
    case: &Case<'_>,
    host: &mut H,
) -> Result<String, Fail> {
    let whole = Play {
        events: usize::MAX,
        fault: case.fault,
        marked: false,
    };
    let with_memory = last_reading(alloc, case, host, whole)?;
    let marked = Play {
        marked: true,
        ..whole
    };
    let reading = last_reading(alloc, case, host, marked)?;
    if !reading.is_as(alloc, &with_memory)? {
        hold_refused(alloc, case, host, &reading, &with_memory)?;
    }
    Ok(answer_text(alloc, &with_memory.end.answer)?)
}
