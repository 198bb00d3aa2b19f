//! The helpers of tests of hosts.

use std::alloc::Global;
use std::test::Fail;
use test_cases::{
    change_of, event_text, expect_rows, last_painting, marked_text, rows, script_events,
};
use tw_surface::{Change, Screen};
use tw_terminal::{ScreenSize, ScriptTerminal, Terminal};

/// Returns the events of a script.
fn events(alloc: Global, script: &str) -> Result<String, Fail> {
    let mut output = Vec::new(alloc);
    for event in &script_events(alloc, script)? {
        output.push(event_text(alloc, event)?)?;
    }
    Ok(output.join(alloc, ", ")?)
}

fn changes_of(alloc: Global, names: &str) -> Result<Vec<Change>, Fail> {
    let mut changes = Vec::new(alloc);
    for name in names.split("; ") {
        changes.push(change_of(alloc, name)?)?;
    }
    Ok(changes)
}

/// Returns the rows of a screen of four columns, with a `/` after each.
fn rows_text(alloc: Global, changes: &[Change]) -> Result<String, Fail> {
    let mut screen = Screen::new(alloc, 4)?;
    for change in changes {
        screen.apply(change)?;
    }
    let mut output = String::new(alloc);
    for row in &rows(alloc, &screen, 4)? {
        write!(output, "{row}/")?;
    }
    Ok(output)
}

/// Returns the marked text of the last painting; each change is a batch.
fn painting(alloc: Global, changes: &[Change]) -> Result<String, Fail> {
    let size = ScreenSize { rows: 24, cols: 80 };
    let mut terminal = ScriptTerminal::new(alloc, size, Vec::new(alloc));
    for at in 0..changes.len() {
        terminal.render(&changes[at..at + 1])?;
    }
    Ok(match last_painting(&terminal) {
        Some(painting) => marked_text(alloc, painting)?,
        None => String::from_str(alloc, "none")?,
    })
}

/// Runs a helper: `script SCRIPT`, `marked CHANGES`, `rows CHANGES` or `painting CHANGES`.
fn shown(alloc: Global, command: &str) -> Result<String, Fail> {
    let (word, rest) = command.split_once(' ').ok_or("no word")?;
    if word == "script" {
        return events(alloc, rest);
    }
    let changes = changes_of(alloc, rest)?;
    match word {
        "marked" => Ok(marked_text(alloc, changes.as_slice())?),
        "rows" => rows_text(alloc, changes.as_slice()),
        _ => painting(alloc, changes.as_slice()),
    }
}

const SHOWN: &str = r#"
script type ab\nkey C-R\nkey Tab\npaste a b => Char a, Char b, CTRL Char R, Tab, Paste("a b")
marked at -1 0; clear_below; plain; text > ; bold; text ls => {}> {Intensity(Bold)}ls
rows plain =>
rows text ab\r\n\r\n c de => ab// c d/e/
painting plain => none
painting text first; text last; text closing => last
"#;

#[test]
fn texts_are_made(rt: HostRuntime) -> Result<(), Fail> {
    expect_rows(rt.alloc(), SHOWN, shown)
}
