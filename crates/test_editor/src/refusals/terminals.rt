//! Batches that are rendered on a scripted terminal, with each request refused in turn.

use std::alloc::{AllocError, Global};
use std::test::Fail;
use test_cases::{batches_text, expect_cases, hold, mark, terminal_of};
use tw_surface::{Change, ColorAttribute};
use tw_terminal::{ScriptTerminal, Terminal, TerminalFault};

/// Returns a clearing of the screen and a text.
fn batch_of(alloc: Global, text: &str) -> Result<Vec<Change>, AllocError> {
    let mut batch = Vec::new(alloc);
    batch.push(Change::ClearScreen(ColorAttribute::Default))?;
    batch.push(Change::Text(String::from_str(alloc, text)?))?;
    Ok(batch)
}

/// Returns what a terminal has taken, and what it was left with. Of the failures `refused` were of memory.
fn taken_text(
    alloc: Global,
    terminal: &ScriptTerminal,
    refused: usize,
) -> Result<String, AllocError> {
    let left = terminal.events_left();
    let flushed = terminal.flushed();
    let failures = terminal.failures().saturating_sub(refused);
    let batches = batches_text(alloc, terminal.batches())?;
    format!(in alloc; "{left} left, {flushed} flushed, {failures} failed\n{batches}")
}

/// Renders a batch for each text between marks, up to the first that the device refuses, and flushes each. If memory is
/// refused nothing is recorded and the failure is counted; the batch is then rendered again.
fn play_terminal(alloc: Global, lines: &str) -> Result<String, Fail> {
    let (taken, texts) = lines.split_once('\n').ok_or("no first line")?;
    let taken: Option<usize> = taken.parse().ok();
    let mut terminal = terminal_of(alloc, 80, "a b")?;
    terminal.fail_at(
        if taken.is_some() { 0 } else { usize::MAX },
        taken.unwrap_or(0),
    );
    let mut refused = 0usize;
    for text in texts.lines() {
        let batch = batch_of(alloc, text)?;
        let before = taken_text(alloc, &terminal, refused)?;
        mark(alloc)?;
        let mut rendered = terminal.render(batch.as_slice());
        mark(alloc)?;
        if rendered == Err(TerminalFault::Memory) {
            refused = 1;
            let left = taken_text(alloc, &terminal, refused)?;
            hold(left == before, text, left.as_str())?;
            terminal.fail_at(
                if taken.is_some() { 1 } else { usize::MAX },
                taken.unwrap_or(0),
            );
            rendered = terminal.render(batch.as_slice());
        }
        if rendered.is_ok() {
            terminal.flush()?;
        }
    }
    Ok(taken_text(alloc, &terminal, refused)?)
}

/// The first line of a case is how much the device takes of the first batch before it fails, if it does.
const BATCHES: &str = "\
whole
a
bc

d
e
--
2 left, 5 flushed, 0 failed
ClearScreen, Text(\"a\")
ClearScreen, Text(\"bc\")
ClearScreen, Text(\"\")
ClearScreen, Text(\"d\")
ClearScreen, Text(\"e\")
==
0
a
--
2 left, 0 flushed, 1 failed
==
1
a
--
2 left, 0 flushed, 1 failed
ClearScreen
==
2
a
--
2 left, 0 flushed, 1 failed
ClearScreen, Text(\"a\")
==
";

#[test]
fn batches_refused_in_turn(rt: HostRuntime) -> Result<(), Fail> {
    expect_cases(rt.alloc(), BATCHES, play_terminal)
}
