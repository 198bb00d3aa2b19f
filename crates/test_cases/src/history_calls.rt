//! Calls of a history.

use crate::cases::hold;
use crate::marks::mark;
use std::alloc::{AllocError, Global};
use std::test::Fail;
use tw_lineedit::{History, SearchDirection, SearchResult, SearchStyle};

/// Returns the lines of a history, each with a bar after it.
fn lines_of<L: History>(alloc: Global, history: &L) -> Result<String, AllocError> {
    let mut lines = String::new(alloc);
    for at in 0..history.last().map_or(0, |last| last.saturating_add(1)) {
        if let Some(line) = history.get(alloc, at)? {
            lines.push_str(&line)?;
            lines.push('|')?;
        }
    }
    Ok(lines)
}

/// Adds a line between marks. If it is refused, the lines are as before, and it is added again.
fn add<L: History>(alloc: Global, history: &mut L, line: &str) -> Result<(), Fail> {
    let before = lines_of(alloc, history)?;
    mark(alloc)?;
    let added = history.add(line);
    mark(alloc)?;
    if added.is_err() {
        let left = lines_of(alloc, history)?;
        hold(left == before, line, left.as_str())?;
        history.add(line)?;
    }
    Ok(())
}

/// Searches from `INDEX PATTERN`, between marks, and adds the index, the offset and the text of the line that is found.
fn search<L: History>(
    alloc: Global,
    history: &L,
    direction: SearchDirection,
    text: &str,
    outcome: &mut String,
) -> Result<(), Fail> {
    let (idx, pattern) = text.split_once(' ').ok_or("no pattern")?;
    let idx = idx.parse()?;
    mark(alloc)?;
    let found = history.search(alloc, idx, SearchStyle::Substring, direction, pattern);
    mark(alloc)?;
    Ok(tell_found(found?, outcome)?)
}

/// Adds the index, the offset and the text of a line that is found.
fn tell_found(found: Option<SearchResult<'_>>, outcome: &mut String) -> Result<(), AllocError> {
    match found {
        Some(found) => {
            let line: &str = &found.line;
            write!(outcome, "{} {} {line:?}\n", found.idx, found.cursor)
        }
        None => outcome.push_str("None\n"),
    }
}

fn get<L: History>(
    alloc: Global,
    history: &L,
    text: &str,
    outcome: &mut String,
) -> Result<(), Fail> {
    let idx = text.parse()?;
    mark(alloc)?;
    let line = history.get(alloc, idx);
    mark(alloc)?;
    match line? {
        Some(line) => {
            let line: &str = &line;
            write!(outcome, "{line:?}\n")?;
        }
        None => outcome.push_str("None\n")?,
    }
    Ok(())
}

/// Makes the calls of these lines on a history, and returns what comes of them. `have TEXT` adds a line; `add TEXT`
/// does so between marks, and shows all lines; `last` shows the last index, `get INDEX` a line, and `back INDEX
/// PATTERN` and `forth INDEX PATTERN` what a search finds.
pub fn play_history<L: History>(
    alloc: Global,
    history: &mut L,
    calls: &str,
) -> Result<String, Fail> {
    let mut outcome = String::new(alloc);
    for call in calls.lines() {
        make_call(alloc, history, call, &mut outcome)?;
    }
    Ok(outcome)
}

/// Makes the call of a line, and adds what comes of it.
fn make_call<L: History>(
    alloc: Global,
    history: &mut L,
    call: &str,
    outcome: &mut String,
) -> Result<(), Fail> {
    let (word, text) = call.split_once(' ').unwrap_or((call, ""));
    match word {
        "have" => Ok(history.add(text)?),
        "add" => {
            add(alloc, history, text)?;
            tell_lines(alloc, history, outcome)
        }
        "last" => Ok(write!(outcome, "{:?}\n", history.last())?),
        "get" => get(alloc, history, text, outcome),
        "back" => search(alloc, history, SearchDirection::Backwards, text, outcome),
        "forth" => search(alloc, history, SearchDirection::Forwards, text, outcome),
        "#" => Ok(()),
        _ => Err(Fail::from("no call of a history")),
    }
}

/// Adds the lines of a history.
fn tell_lines<L: History>(alloc: Global, history: &L, outcome: &mut String) -> Result<(), Fail> {
    let lines = lines_of(alloc, history)?;
    Ok(write!(outcome, "{lines}\n")?)
}
