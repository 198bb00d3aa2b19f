//! Words that change places, by what readline 8.2 made of these lines at Alt-t. `|` stands where the cursor is.

use std::alloc::{AllocError, Global};
use std::test::Fail;
use test_cases::expect_rows;
use tw_key_parts::with_swapped_words;
use tw_line::LineEditBuffer;

/// Returns the line that a text writes, with its cursor.
fn line_of(alloc: Global, text: &str) -> Result<LineEditBuffer, AllocError> {
    let (before, after) = text.split_once('|').unwrap_or((text, ""));
    let mut line = LineEditBuffer::new(alloc, after, 0)?;
    line.insert_text(before)?;
    Ok(line)
}

/// Returns the line after Alt-t.
fn swapped(alloc: Global, text: &str) -> Result<String, Fail> {
    let changed = with_swapped_words(alloc, &line_of(alloc, text)?)?;
    let cursor = changed.get_cursor();
    let line = changed.get_line();
    Ok(format!(in alloc; "{}|{}", &line[..cursor], &line[cursor..])?)
}

const LINES: &str = r"
foo bar| => bar foo|
foo b|ar => bar foo|
foo |bar => bar foo|
foo| bar => bar foo|
fo|o bar => fo|o bar
|foo bar => |foo bar
one two three| => one three two|
one two |three => one three two|
one two| three => one three two|
one tw|o three => two one| three
one| two three => two one| three
foo  bar| => bar  foo|
foo | bar => bar  foo|
|  foo bar => |  foo bar
  |foo bar =>   |foo bar
  foo bar| =>   bar foo|
foo| => foo|
|foo => |foo
| => |
a  b   c| => a  c   b|
one two  |three => one three  two|
one two | three => one three  two|
";

#[test]
fn words_change_places_as_in_readline(rt: HostRuntime) -> Result<(), Fail> {
    expect_rows(rt.alloc(), LINES, swapped)
}
