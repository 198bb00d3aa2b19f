//! What an editor is to do, as text, and how it does it.

use crate::events::terminal_sized;
use crate::told::answer_text;
use script_player::ScriptHost;
use std::alloc::{AllocError, Global};
use std::test::Fail;
use tw_lineedit::{History, LineEditor, LineEditorHost};
use tw_terminal::{ScreenSize, ScriptTerminal};

/// What an editor is to do, by the lines of `case_of`.
#[derive(Drop)]
pub struct Case<'a> {
    pub size: ScreenSize,
    pub history: Vec<&'a str>,
    pub preview: &'a str,
    pub candidates: Vec<(usize, usize, &'a str)>,
    pub prompt: &'a str,
    pub initial: Option<&'a str>,
    pub events: &'a str,
    pub readings: usize,
    pub host: &'a str,
    pub shows: &'a str,
    pub steps: Vec<&'a str>,
    pub fault: Option<(usize, usize)>,
}

/// Parses two numbers with a space between them.
pub fn pair_of(text: &str) -> Result<(usize, usize), Fail> {
    let (first, second) = text.split_once(' ').ok_or("no pair")?;
    Ok((first.parse()?, second.parse()?))
}

fn candidate_of(text: &str) -> Result<(usize, usize, &str), Fail> {
    let (start, rest) = text.split_once(' ').ok_or("no end")?;
    let (end, text) = rest.split_once(' ').ok_or("no text")?;
    Ok((start.parse()?, end.parse()?, text))
}

/// Returns the case of lines `size ROWS COLS`, `history TEXT` for each line of the history, `preview TEXT`, `cand START
/// END TEXT` for each candidate, `prompt TEXT`, `initial TEXT`, `events NAMES`, `readings COUNT`, `host NAME`, `show
/// NAME` (`told_of`) and `fail CALL TAKEN`, each of which may be left out, and of steps (`take_steps`). A line `# TEXT`
/// says what the case shows.
pub fn case_of(alloc: Global, lines: &str) -> Result<Case<'_>, Fail> {
    let mut case = Case {
        size: ScreenSize { rows: 24, cols: 80 },
        history: Vec::new(alloc),
        preview: "",
        candidates: Vec::new(alloc),
        prompt: "> ",
        initial: None,
        events: "",
        readings: 1,
        host: "",
        shows: "",
        steps: Vec::new(alloc),
        fault: None,
    };
    take_lines(&mut case, lines)?;
    Ok(case)
}

fn take_lines<'a>(case: &mut Case<'a>, lines: &'a str) -> Result<(), Fail> {
    for line in lines.lines() {
        take_line(case, line)?;
    }
    Ok(())
}

/// Notes a line of a case.
fn take_line<'a>(case: &mut Case<'a>, line: &'a str) -> Result<(), Fail> {
    let (word, text) = line.split_once(' ').unwrap_or((line, ""));
    match word {
        "line" | "set" | "ask" | "remember" | "act" | "do" | "actions" | "read" => {
            Ok(case.steps.push(line)?)
        }
        "history" => Ok(case.history.push(text)?),
        "cand" => add_candidate(&mut case.candidates, text),
        "size" => set_size(&mut case.size, text),
        "readings" => set_count(&mut case.readings, text),
        "fail" => set_fault(&mut case.fault, text),
        "#" => Ok(()),
        _ => take_text(case, word, text),
    }
}

/// Notes a line of a case that is a word and a text.
fn take_text<'a>(case: &mut Case<'a>, word: &str, text: &'a str) -> Result<(), Fail> {
    match word {
        "preview" => case.preview = text,
        "prompt" => case.prompt = text,
        "initial" => case.initial = Some(text),
        "events" => case.events = text,
        "host" => case.host = text,
        "show" => case.shows = text,
        _ => return Err(Fail::from("no such word")),
    }
    Ok(())
}

fn set_size(size: &mut ScreenSize, text: &str) -> Result<(), Fail> {
    let (rows, cols) = pair_of(text)?;
    *size = ScreenSize { rows, cols };
    Ok(())
}

fn set_count(count: &mut usize, text: &str) -> Result<(), Fail> {
    *count = text.parse()?;
    Ok(())
}

fn set_fault(fault: &mut Option<(usize, usize)>, text: &str) -> Result<(), Fail> {
    *fault = Some(pair_of(text)?);
    Ok(())
}

fn add_candidate<'a>(
    candidates: &mut Vec<(usize, usize, &'a str)>,
    text: &'a str,
) -> Result<(), Fail> {
    candidates.push(candidate_of(text)?)?;
    Ok(())
}

/// Adds the lines to the host's history.
pub fn remember_all<H: LineEditorHost>(host: &mut H, lines: &[&str]) -> Result<(), AllocError> {
    for line in lines {
        host.history().add(line)?;
    }
    Ok(())
}

/// Returns the host of a case, over a history that is empty at first.
pub fn host_of<L: History + Drop>(
    alloc: Global,
    history: L,
    case: &Case<'_>,
) -> Result<ScriptHost<L>, AllocError> {
    let mut host = ScriptHost::new(alloc, history);
    prepare_host(alloc, &mut host, case)?;
    Ok(host)
}

/// Gives a host the history, the preview and the candidates of a case.
fn prepare_host<L: History>(
    alloc: Global,
    host: &mut ScriptHost<L>,
    case: &Case<'_>,
) -> Result<(), AllocError> {
    remember_all(host, case.history.as_slice())?;
    let preview = case.preview.replace(alloc, "\\n", "\r\n")?;
    host.set_preview(preview.as_str())?;
    offer_all(host, case.candidates.as_slice())
}

/// Lets a host offer the candidates.
fn offer_all<L: History>(
    host: &mut ScriptHost<L>,
    candidates: &[(usize, usize, &str)],
) -> Result<(), AllocError> {
    for &(start, end, text) in candidates {
        host.offer(start..end, text)?;
    }
    Ok(())
}

/// Returns the terminal of a case, with its events and its fault.
pub(crate) fn case_terminal(alloc: Global, case: &Case<'_>) -> Result<ScriptTerminal, Fail> {
    let mut terminal = terminal_sized(alloc, case.size, case.events)?;
    if let Some((call, taken)) = case.fault {
        terminal.fail_at(call, taken);
    }
    Ok(terminal)
}

/// Reads the lines of a case with one editor on this terminal, and returns the answers as text.
pub(crate) fn read_lines<H: LineEditorHost>(
    alloc: Global,
    case: &Case<'_>,
    host: &mut H,
    terminal: &mut ScriptTerminal,
) -> Result<String, Fail> {
    let mut editor = LineEditor::new(alloc, terminal)?;
    editor.set_prompt(case.prompt)?;
    answers_of(alloc, case, host, &mut editor)
}

/// Reads a line of a case, and returns the answer as text.
fn answer_of<H: LineEditorHost>(
    alloc: Global,
    case: &Case<'_>,
    host: &mut H,
    editor: &mut LineEditor<'_, ScriptTerminal>,
) -> Result<String, AllocError> {
    let answer = editor.read_line_with_optional_initial_value(host, case.initial);
    answer_text(alloc, &answer)
}

/// Reads the lines of a case with this editor, and returns the answers as text.
fn answers_of<H: LineEditorHost>(
    alloc: Global,
    case: &Case<'_>,
    host: &mut H,
    editor: &mut LineEditor<'_, ScriptTerminal>,
) -> Result<String, Fail> {
    let mut answers = String::new(alloc);
    for number in 0..case.readings {
        let answer = answer_of(alloc, case, host, editor)?;
        let parting = if number == 0 { "" } else { ", " };
        write!(answers, "{parting}{answer}")?;
    }
    Ok(answers)
}
