//! Edits of a line buffer, with each request refused in turn, and those that make none.

use std::alloc::{AllocError, Global};
use std::test::Fail;
use test_cases::{expect_cases, hold, mark, mark_if, movement_named, movements_named};
use tw_lineedit::{LineEditBuffer, Movement};

/// A call of a line buffer.
#[derive(Clone, Copy)]
enum Call<'a> {
    InsertChar(char),
    InsertText(&'a str),
    InsertChars(usize, char),
    InsertTexts(usize, &'a str),
    SetLine(usize, &'a str),
    Move(Movement),
    Kill(Movement, Movement),
    Clear,
}

fn numbered(text: &str) -> Result<(usize, &str), Fail> {
    let (number, rest) = text.split_once(' ').ok_or("no number")?;
    Ok((number.parse()?, rest))
}

/// Returns the call of a line: `char C`, `text TEXT`, `chars COUNT C`, `texts COUNT TEXT`, `set CURSOR TEXT`, `move
/// MOVEMENT`, `kill MOVEMENT, MOVEMENT` or `clear`.
fn call_of(line: &str) -> Result<Call<'_>, Fail> {
    let (word, text) = line.split_once(' ').unwrap_or((line, ""));
    match word {
        "char" => Ok(Call::InsertChar(text.parse()?)),
        "text" => Ok(Call::InsertText(text)),
        "chars" => {
            let (count, c) = numbered(text)?;
            Ok(Call::InsertChars(count, c.parse()?))
        }
        "texts" => {
            let (count, text) = numbered(text)?;
            Ok(Call::InsertTexts(count, text))
        }
        "set" => {
            let (cursor, text) = numbered(text)?;
            Ok(Call::SetLine(cursor, text))
        }
        "move" => Ok(Call::Move(movement_named(text)?)),
        "kill" => {
            let (kill, movement) = movements_named(text)?;
            Ok(Call::Kill(kill, movement))
        }
        "clear" => Ok(Call::Clear),
        _ => Err(Fail::from("no call of a buffer")),
    }
}

fn make(buffer: &mut LineEditBuffer, call: Call<'_>) -> Result<(), AllocError> {
    match call {
        Call::InsertChar(c) => buffer.insert_char(c)?,
        Call::InsertText(text) => buffer.insert_text(text)?,
        Call::InsertChars(count, c) => buffer.insert_char_times(count, c)?,
        Call::InsertTexts(count, text) => buffer.insert_text_times(count, text)?,
        Call::SetLine(cursor, text) => {
            if text.is_char_boundary(cursor) {
                buffer.set_line_and_cursor(text, cursor)?;
            }
        }
        Call::Move(movement) => buffer.exec_movement(movement),
        Call::Kill(kill, movement) => buffer.kill_text(kill, movement),
        Call::Clear => buffer.clear(),
    }
    Ok(())
}

fn text_of(alloc: Global, buffer: &LineEditBuffer) -> Result<String, AllocError> {
    format!(in alloc; "{:?} at {}", buffer.get_line(), buffer.get_cursor())
}

/// Makes a call between marks. If it is refused the buffer is as it was, and the call is made again.
fn make_marked(alloc: Global, buffer: &mut LineEditBuffer, call: Call<'_>) -> Result<(), Fail> {
    let before = text_of(alloc, buffer)?;
    mark(alloc)?;
    let made = make(buffer, call);
    mark(alloc)?;
    if made.is_err() {
        let left = text_of(alloc, buffer)?;
        hold(left == before, before.as_str(), left.as_str())?;
        make(buffer, call)?;
    }
    Ok(())
}

/// Returns the buffer of `new CURSOR TEXT`, which is made between marks, or of `old CURSOR TEXT`.
fn buffer_of(alloc: Global, line: &str) -> Result<LineEditBuffer, Fail> {
    let (word, text) = line.split_once(' ').ok_or("no buffer")?;
    let (cursor, text) = numbered(text)?;
    if !text.is_char_boundary(cursor) {
        return Err(Fail::from("no boundary"));
    }
    mark_if(alloc, word == "new")?;
    let made = LineEditBuffer::new(alloc, text, cursor);
    mark_if(alloc, word == "new")?;
    match made {
        Ok(buffer) => Ok(buffer),
        Err(_) => Ok(LineEditBuffer::new(alloc, text, cursor)?),
    }
}

/// Makes a buffer and calls of it, and returns the line and its cursor at last.
fn play_buffer(alloc: Global, lines: &str) -> Result<String, Fail> {
    let (first, calls) = lines.split_once('\n').ok_or("no buffer")?;
    let mut buffer = buffer_of(alloc, first)?;
    for line in calls.lines() {
        make_marked(alloc, &mut buffer, call_of(line)?)?;
    }
    Ok(text_of(alloc, &buffer)?)
}

const EDITS: &str = "\
new 3 a b
--
\"a b\" at 3
==
new 3 a b
move BackwardWord 1
--
\"a b\" at 2
==
new 0 a\u{e9}b
kill ForwardChar 1, ForwardChar 1
--
\"\u{e9}b\" at 0
==
new 0 \u{301}
char e
--
\"e\\u{301}\" at 3
==
new 0 \u{301}
text e
--
\"e\\u{301}\" at 1
==
new 1 abc
move ForwardChar 18446744073709551615
--
\"abc\" at 3
==
new 11 hello world
move BackwardWord 1
--
\"hello world\" at 6
==
new 0 foo  bar
move ForwardWord 1
--
\"foo  bar\" at 5
==
new 2 hello
kill EndOfLine, EndOfLine
--
\"he\" at 2
==
new 1 abc
kill ForwardChar 1, None
--
\"ac\" at 1
==
new 0 \u{e9}
move EndOfLine
--
\"\u{e9}\" at 2
==
new 1 abc
clear
--
\"\" at 0
==
new 3 a\u{e9}
set 9 why hello there
--
\"why hello there\" at 9
==
";

#[test]
fn edits_refused_in_turn(rt: HostRuntime) -> Result<(), Fail> {
    expect_cases(rt.alloc(), EDITS, play_buffer)
}

/// The text grows and the list of the offsets at which its characters start: both are asked for before anything is
/// inserted.
#[test]
fn one_insertion_refused_in_turn(rt: HostRuntime) -> Result<(), Fail> {
    expect_cases(
        rt.alloc(),
        "new 0 \nchar a\n--\n\"a\" at 1\n==\n",
        play_buffer,
    )
}

/// Inserts the characters of a text one by one.
fn play_growing(alloc: Global, text: &str) -> Result<String, Fail> {
    let text = text.trim_end();
    let mut buffer = LineEditBuffer::empty(alloc);
    for c in text.chars() {
        make_marked(alloc, &mut buffer, Call::InsertChar(c))?;
        hold(text.starts_with(buffer.get_line()), text, buffer.get_line())?;
    }
    Ok(text_of(alloc, &buffer)?)
}

const GROWING: &str = "\
a\u{e9}\u{4e00} ba\u{e9}\u{4e00} ba\u{e9}\u{4e00} ba\u{e9}\u{4e00} ba\u{e9}\u{4e00} ba\u{e9}\u{4e00} ba\u{e9}\u{4e00} ba\u{e9}\u{4e00} b
--
\"a\u{e9}\u{4e00} ba\u{e9}\u{4e00} ba\u{e9}\u{4e00} ba\u{e9}\u{4e00} ba\u{e9}\u{4e00} ba\u{e9}\u{4e00} ba\u{e9}\u{4e00} ba\u{e9}\u{4e00} b\" at 64
==
";

#[test]
fn insertions_one_by_one_refused_in_turn(rt: HostRuntime) -> Result<(), Fail> {
    expect_cases(rt.alloc(), GROWING, play_growing)
}

/// Edits that insert nothing, and lines that are empty.
const NOTHING: &str = "\
old 1 ab
text 
texts 18446744073709551615 
texts 0 xy
chars 0 x
--
\"ab\" at 1
==
old 1 ab
set 0 
--
\"\" at 0
==
new 0 
--
\"\" at 0
==
";

#[test]
fn nothing_is_inserted_without_memory(rt: HostRuntime) -> Result<(), Fail> {
    expect_cases(rt.alloc(), NOTHING, play_buffer)
}

const LINE: &str = "foo  a\u{301}b \u{1f1e9}\u{1f1ea} \u{4e00}\u{e9}x";

/// Moves by a movement from the middle of a line, kills by it, and does both on the empty line.
fn play_moves(alloc: Global, movements: &str) -> Result<String, Fail> {
    let mut outcome = String::new(alloc);
    for movement in movements.lines() {
        let calls = format!(in alloc;
            "old 5 {LINE}\nmove {movement}\nkill {movement}, BackwardChar 1\nkill BackwardWord 1, {movement}\n\
            clear\nkill {movement}, {movement}\nmove {movement}\n"
        )?;
        let left = play_buffer(alloc, calls.as_str())?;
        hold(left.as_str() == "\"\" at 0", movement, left.as_str())?;
        outcome.push('.')?;
    }
    Ok(outcome)
}

const MOVEMENTS: &str = "\
BackwardChar 0
BackwardChar 1
BackwardChar 3
BackwardChar 18446744073709551615
BackwardWord 0
BackwardWord 1
BackwardWord 3
BackwardWord 18446744073709551615
ForwardChar 0
ForwardChar 1
ForwardChar 3
ForwardChar 18446744073709551615
ForwardWord 0
ForwardWord 1
ForwardWord 3
ForwardWord 18446744073709551615
StartOfLine
EndOfLine
None
--
...................
==
";

#[test]
fn lines_move_and_shrink_without_memory(rt: HostRuntime) -> Result<(), Fail> {
    expect_cases(rt.alloc(), MOVEMENTS, play_moves)
}
