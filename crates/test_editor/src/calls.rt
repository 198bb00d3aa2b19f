//! The calls that the editor makes to its terminal.

use std::alloc::{AllocError, Global};
use std::test::Fail;
use test_cases::{
    Case, action_named, answer_text, case_of, expect_cases, hold, remember_all, terminal_sized,
    terminal_text,
};
use tw_input::InputEvent;
use tw_lineedit::{Error, LineEditor, NopLineEditorHost};
use tw_surface::Change;
use tw_terminal::{ScreenSize, ScriptTerminal, Terminal, TerminalFault};

/// A scripted terminal that lists its calls, and answers one fault whatever its script answers.
#[derive(Drop)]
struct Listing {
    script: ScriptTerminal,
    fault: TerminalFault,
    calls: String,
}

impl Terminal for Listing {
    ghost state = { λ listing. listing.script.terminal };

    fn get_screen_size(&mut self) -> Result<ScreenSize, TerminalFault> {
        let _ = self.calls.push_str("size ");
        self.script.get_screen_size().or(Err(self.fault))
    }

    fn poll_input(&mut self) -> Result<Option<InputEvent>, TerminalFault> {
        let _ = self.calls.push_str("poll ");
        self.script.poll_input().or(Err(self.fault))
    }

    fn render(&mut self, changes: &[Change]) -> Result<(), TerminalFault> {
        let _ = self.calls.push_str("render ");
        self.script.render(changes).or(Err(self.fault))
    }

    fn flush(&mut self) -> Result<(), TerminalFault> {
        let _ = self.calls.push_str("flush ");
        self.script.flush().or(Err(self.fault))
    }
}

type Editor<'term> = LineEditor<'term, Listing>;

/// Fails if a refusal is another fault of the terminal than this one.
fn hold_fault(error: &Error, wanted: TerminalFault, what: &str) -> Result<(), Fail> {
    match error {
        Error::Terminal(fault) => hold(*fault == wanted, what, "another fault"),
        _ => Ok(()),
    }
}

/// Applies the action of `do NAME`, and adds its refusal if it is refused.
fn apply(
    alloc: Global,
    editor: &mut Editor<'_>,
    host: &mut NopLineEditorHost,
    step: &str,
    fault: TerminalFault,
    outcome: &mut String,
) -> Result<(), Fail> {
    let name = step.strip_prefix("do ").ok_or("no action")?;
    if let Err(error) = editor.apply_action(host, action_named(alloc, name)?) {
        hold_fault(&error, fault, name)?;
        write!(outcome, "refusal {}, ", error.number())?;
    }
    Ok(())
}

/// Reads a line, and adds the answer.
fn read(
    alloc: Global,
    editor: &mut Editor<'_>,
    host: &mut NopLineEditorHost,
    fault: TerminalFault,
    outcome: &mut String,
) -> Result<(), Fail> {
    let answer = editor.read_line(host);
    if let Err(error) = &answer {
        hold_fault(error, fault, "a reading")?;
    }
    outcome.push_str(answer_text(alloc, &answer)?.as_str())?;
    Ok(())
}

/// Applies the actions of a case, reads its line, and adds what comes of each.
fn play_steps(
    alloc: Global,
    case: &Case<'_>,
    terminal: &mut Listing,
    host: &mut NopLineEditorHost,
    outcome: &mut String,
) -> Result<(), Fail> {
    let fault = terminal.fault;
    remember_all(host, case.history.as_slice())?;
    let mut editor = LineEditor::new(alloc, terminal)?;
    for step in &case.steps {
        apply(alloc, &mut editor, host, step, fault, outcome)?;
    }
    read(alloc, &mut editor, host, fault, outcome)
}

/// Adds what a terminal was left with, each batch if these are shown, and its calls.
fn add_calls(
    alloc: Global,
    terminal: &Listing,
    shows: &str,
    outcome: &mut String,
) -> Result<(), AllocError> {
    let calls = terminal.calls.as_str().trim_end();
    if shows == "batches" {
        let taken = terminal_text(alloc, &terminal.script)?;
        return write!(outcome, ", {taken}{calls}");
    }
    write!(outcome, ", {} left, {calls}", terminal.script.events_left())
}

/// Returns a terminal for a case that answers this fault.
fn listing_of(alloc: Global, case: &Case<'_>, fault: TerminalFault) -> Result<Listing, Fail> {
    let mut script = terminal_sized(alloc, case.size, case.events)?;
    if let Some((call, taken)) = case.fault {
        script.fail_at(call, taken);
    }
    let calls = String::new(alloc);
    Ok(Listing {
        script,
        fault,
        calls,
    })
}

/// Applies the actions of a case and reads its line on a terminal that answers this fault. Returns the answers, what
/// the terminal was left with, each batch if these are shown, and the calls.
fn called(alloc: Global, case: &Case<'_>, fault: TerminalFault) -> Result<String, Fail> {
    let mut outcome = String::new(alloc);
    let mut terminal = listing_of(alloc, case, fault)?;
    let mut host = NopLineEditorHost::new(alloc);
    play_steps(alloc, case, &mut terminal, &mut host, &mut outcome)?;
    add_calls(alloc, &terminal, case.shows, &mut outcome)?;
    Ok(outcome)
}

/// Plays a case on terminals of either fault.
pub fn play_calls(alloc: Global, lines: &str) -> Result<String, Fail> {
    let case = case_of(alloc, lines)?;
    let outcome = called(alloc, &case, TerminalFault::Device)?;
    let other = called(alloc, &case, TerminalFault::Memory)?;
    hold(outcome == other, outcome.as_str(), other.as_str())?;
    Ok(outcome)
}

const CALLS: &str = "\
# each event has one painting
events Enter
--
Some(\"\"), 0 left, size render poll size render render flush
==
events Escape
--
Some(\"\"), 0 left, size render poll size render poll render flush
==
events C-L
--
Some(\"\"), 0 left, size render poll render size render poll render flush
==
# the refusal of an event has none
events C-D
--
refusal 1, 0 left, size render poll render flush
==
events 0x24
--
refusal 3, 0 left, size render poll size render flush
==
# a mode that an action left refuses the next reading, which then calls no terminal
events a Enter
do Cancel
--
refusal 2, 2 left, 
==
history one
events a Enter
do HistoryIncSearchForwards
--
refusal 2, 2 left, 
==
# a refused repaint
do Repaint
fail 0 0
--
refusal 7, Some(\"\"), 0 left, render size render poll render flush
==
# however many keys are typed, each has three calls
events a
--
Some(\"a\"), 0 left, size render poll size render poll render flush
==
events a b
--
Some(\"ab\"), 0 left, size render poll size render poll size render poll render flush
==
events a b c
--
Some(\"abc\"), 0 left, size render poll size render poll size render poll size render poll render flush
==
events a b c d
--
Some(\"abcd\"), 0 left, size render poll size render poll size render poll size render poll size render poll render flush
==
events a b c d e
--
Some(\"abcde\"), 0 left, size render poll size render poll size render poll size render poll size render poll size render poll render flush
==
events a b c d e f
--
Some(\"abcdef\"), 0 left, size render poll size render poll size render poll size render poll size render poll size render poll size render poll render flush
==
events a b c d e f g
--
Some(\"abcdefg\"), 0 left, size render poll size render poll size render poll size render poll size render poll size render poll size render poll size render poll render flush
==
events a b c d e f g h
--
Some(\"abcdefgh\"), 0 left, size render poll size render poll size render poll size render poll size render poll size render poll size render poll size render poll size render poll render flush
==
events a b c d e f g h i
--
Some(\"abcdefghi\"), 0 left, size render poll size render poll size render poll size render poll size render poll size render poll size render poll size render poll size render poll size render poll render flush
==
events a b c d e f g h i j
--
Some(\"abcdefghij\"), 0 left, size render poll size render poll size render poll size render poll size render poll size render poll size render poll size render poll size render poll size render poll size render poll render flush
==
";

#[test]
fn each_event_has_one_painting(rt: HostRuntime) -> Result<(), Fail> {
    expect_cases(rt.alloc(), CALLS, play_calls)
}
