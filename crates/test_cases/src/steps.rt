//! Steps of an editor outside a reading.

use crate::actions::action_named;
use crate::case::Case;
use crate::cases::hold;
use crate::marks::{mark, mark_if};
use crate::told::answer_text;
use std::alloc::{AllocError, Global};
use std::test::Fail;
use tw_lineedit::{Error, History, LineEditor, LineEditorHost};
use tw_terminal::{ScriptTerminal, TerminalFault};

type Editor<'term> = LineEditor<'term, ScriptTerminal>;

/// Returns true if memory was refused, to the editor or to its terminal.
fn is_memory(error: &Error) -> bool {
    matches!(
        error,
        Error::Memory(_) | Error::Terminal(TerminalFault::Memory)
    )
}

/// Returns the line and its cursor.
fn line_text(alloc: Global, editor: &mut Editor<'_>) -> Result<String, AllocError> {
    let (line, cursor) = editor.get_line_and_cursor();
    format!(in alloc; "{line:?} at {cursor}")
}

/// Applies an action between marks.
fn apply_marked<H: LineEditorHost>(
    alloc: Global,
    editor: &mut Editor<'_>,
    host: &mut H,
    name: &str,
) -> Result<Result<(), Error>, Fail> {
    let action = action_named(alloc, name)?;
    mark(alloc)?;
    let applied = editor.apply_action(host, action);
    mark(alloc)?;
    Ok(applied)
}

/// Applies an action between marks. If it is refused, line and cursor are as before; if it is refused for memory, it is
/// applied again.
fn apply<H: LineEditorHost>(
    alloc: Global,
    editor: &mut Editor<'_>,
    host: &mut H,
    name: &str,
) -> Result<Result<(), Error>, Fail> {
    let before = line_text(alloc, editor)?;
    let Err(error) = apply_marked(alloc, editor, host, name)? else {
        return Ok(Ok(()));
    };
    hold(line_text(alloc, editor)? == before, name, "another line")?;
    if is_memory(&error) {
        return Ok(editor.apply_action(host, action_named(alloc, name)?));
    }
    Ok(Err(error))
}

/// Parses `CURSOR TEXT`: a cursor and a line.
fn cursor_and_line(text: &str) -> Result<(usize, &str), Fail> {
    let (cursor, line) = text.split_once(' ').ok_or("no line")?;
    Ok((cursor.parse()?, line))
}

/// Sets the line of `CURSOR TEXT`, between marks if these are wanted. If it is refused, line and cursor are as before,
/// and it is set again.
fn set(alloc: Global, editor: &mut Editor<'_>, text: &str, marked: bool) -> Result<(), Fail> {
    let (cursor, line) = cursor_and_line(text)?;
    if !line.is_char_boundary(cursor) {
        return Err(Fail::from("no boundary"));
    }
    let before = line_text(alloc, editor)?;
    mark_if(alloc, marked)?;
    let set = editor.set_line_and_cursor(line, cursor);
    mark_if(alloc, marked)?;
    if set.is_err() {
        hold(line_text(alloc, editor)? == before, text, "another line")?;
        editor.set_line_and_cursor(line, cursor)?;
    }
    Ok(())
}

/// Sets the prompt between marks, and again if it is refused.
fn ask(alloc: Global, editor: &mut Editor<'_>, prompt: &str) -> Result<(), Fail> {
    mark(alloc)?;
    let set = editor.set_prompt(prompt);
    mark(alloc)?;
    if set.is_err() {
        editor.set_prompt(prompt)?;
    }
    Ok(())
}

/// Applies the actions of the events of these names.
fn apply_all<H: LineEditorHost>(
    alloc: Global,
    editor: &mut Editor<'_>,
    host: &mut H,
    names: &str,
) -> Result<(), Fail> {
    for name in names.split_whitespace() {
        editor.apply_action(host, action_named(alloc, name)?)?;
    }
    Ok(())
}

/// Adds the line and its cursor.
fn tell_line(alloc: Global, editor: &mut Editor<'_>, outcome: &mut String) -> Result<(), Fail> {
    let line = line_text(alloc, editor)?;
    Ok(write!(outcome, "{line}\n")?)
}

/// Reads a line, and returns what was answered as text.
fn answer_of<H: LineEditorHost>(
    alloc: Global,
    editor: &mut Editor<'_>,
    host: &mut H,
) -> Result<String, AllocError> {
    answer_text(alloc, &editor.read_line(host))
}

/// Reads a line, and adds what was answered.
fn read<H: LineEditorHost>(
    alloc: Global,
    editor: &mut Editor<'_>,
    host: &mut H,
    outcome: &mut String,
) -> Result<(), Fail> {
    let answer = answer_of(alloc, editor, host)?;
    Ok(write!(outcome, "{answer}\n")?)
}

/// Applies an action between marks, and adds its refusal, if it is refused, and the line.
fn apply_one<H: LineEditorHost>(
    alloc: Global,
    editor: &mut Editor<'_>,
    host: &mut H,
    name: &str,
    outcome: &mut String,
) -> Result<(), Fail> {
    if let Err(error) = apply(alloc, editor, host, name)? {
        write!(outcome, "refusal {}, ", error.number())?;
    }
    tell_line(alloc, editor, outcome)
}

/// Applies the actions of these names, each between marks, and adds the line.
fn apply_each<H: LineEditorHost>(
    alloc: Global,
    editor: &mut Editor<'_>,
    host: &mut H,
    names: &str,
    outcome: &mut String,
) -> Result<(), Fail> {
    for name in names.split_whitespace() {
        apply(alloc, editor, host, name)??;
    }
    tell_line(alloc, editor, outcome)
}

/// Takes a step, and adds what came of it.
fn take_step<H: LineEditorHost>(
    alloc: Global,
    editor: &mut Editor<'_>,
    host: &mut H,
    step: &str,
    outcome: &mut String,
) -> Result<(), Fail> {
    let (word, text) = step.split_once(' ').unwrap_or((step, ""));
    match word {
        "line" => set(alloc, editor, text, false),
        "set" => set(alloc, editor, text, true),
        "ask" => ask(alloc, editor, text),
        "remember" => Ok(host.history().add(text)?),
        "read" => read(alloc, editor, host, outcome),
        "act" => apply_all(alloc, editor, host, text),
        "do" => apply_one(alloc, editor, host, text, outcome),
        _ => apply_each(alloc, editor, host, text, outcome),
    }
}

/// Takes the steps of a case with a new editor on this terminal, and returns what came of them. `line CURSOR TEXT` sets
/// the line, `set CURSOR TEXT` too, between marks; `ask TEXT` sets the prompt; `remember TEXT` adds to the history; `act
/// NAMES` applies the actions of these names; `do NAME` applies one between marks, and shows line and cursor, with its
/// refusal if it is refused; `actions NAMES` applies each between marks, and shows line and cursor; `read` shows the
/// answer of a reading.
pub(crate) fn take_steps<H: LineEditorHost>(
    alloc: Global,
    case: &Case<'_>,
    host: &mut H,
    terminal: &mut ScriptTerminal,
) -> Result<String, Fail> {
    let mut editor = LineEditor::new(alloc, terminal)?;
    let mut outcome = String::new(alloc);
    for step in &case.steps {
        take_step(alloc, &mut editor, host, step, &mut outcome)?;
    }
    Ok(outcome)
}
