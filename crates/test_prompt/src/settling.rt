//! The cursor's column where wide characters leave cells empty at the screen's edge. The columns are counted by hand on
//! what a terminal shows after the prompt `> `.

use crate::prompt::{Prompt, new_prompt};
use std::alloc::Global;
use std::test::Fail;
use test_cases::{events_named, expect_rows};
use tw_host::LineEditorHost;
use tw_hosts::settled_column;
use tw_line::LineEditBuffer;

/// Returns the cursor's column at the end of a line before and after an event: `EVENT LINE`.
fn resized(alloc: Global, prompt: &mut Prompt, command: &str) -> Result<String, Fail> {
    let (name, line) = command.split_once(' ').ok_or("no line")?;
    let (_, before) = prompt.highlight_line(alloc, line, line.len())?;
    let mut buffer = LineEditBuffer::empty(alloc);
    let events = events_named(alloc, name)?;
    for event in &events {
        if prompt.resolve_action(alloc, event, &mut buffer)?.is_some() {
            return Err(Fail::from("an action"));
        }
    }
    let (_, after) = prompt.highlight_line(alloc, line, line.len())?;
    Ok(format!(in alloc; "{before} {after}")?)
}

/// Returns the cursor's column: `COLS CURSOR LINE`, or `resized EVENT LINE`, at first on 80 columns.
fn column(alloc: Global, command: &str) -> Result<String, Fail> {
    let (cols, rest) = command.split_once(' ').ok_or("no line")?;
    if cols == "resized" {
        return resized(alloc, &mut new_prompt(alloc)?, rest);
    }
    let (cursor, line) = rest.split_once(' ').ok_or("no line")?;
    let cursor = cursor.parse()?;
    if !line.is_char_boundary(cursor) {
        return Err(Fail::from("no boundary"));
    }
    let column = settled_column(cols.parse()?, "> ", line, cursor);
    Ok(format!(in alloc; "{column}")?)
}

const CURSORS: &str = r"
// cells that wide characters leave empty are counted
// The character stands in columns 0 and 1 of the second row.
3 3 \u{65e5} => 3
// The cursor goes with it: the last column of the first row is empty.
3 0 \u{65e5} => 1
7 6 \u{65e5}\u{672c}\u{8a9e} => 5
7 9 \u{65e5}\u{672c}\u{8a9e} => 7
5 6 \u{d55c}\u{ae00} => 5
5 4 \u{1f600}\u{1f600} => 3
// A narrow character fills the last column.
7 7 \u{65e5}\u{672c}ab => 5
// An accent goes with its letter.
4 3 e\u{301}\u{65e5} => 2
4 6 e\u{301}\u{65e5} => 4

// narrow characters of a cluster leave no cell empty
// Thai KO KAI and SARA AM: the first fills column 3 of 4, the second begins the next row.
4 3 \u{e01}\u{e01}\u{e33} => 1
4 9 \u{e01}\u{e01}\u{e33} => 3
// Halfwidth KA with the voiced mark.
4 3 \u{ff76}\u{ff76}\u{ff9e} => 1
4 9 \u{ff76}\u{ff76}\u{ff9e} => 3

// without an edge the column is the plain one
80 6 \u{65e5}\u{672c}x => 4
// No screen has such columns.
0 6 \u{65e5}\u{672c}x => 4
65536 6 \u{65e5}\u{672c}x => 4
3 5 abcdef => 5
// After the carriage return the cell stands before the line.
4 4 a\r\u{e9} => 3

// a host hears a new size
resized 7x9 \u{65e5}\u{672c}\u{8a9e} => 6 7
";

#[test]
fn cursors_stand_in_their_columns(rt: HostRuntime) -> Result<(), Fail> {
    expect_rows(rt.alloc(), CURSORS, column)
}
