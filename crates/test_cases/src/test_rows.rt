//! Rows of tests: each line has an input and the wanted output.

use crate::cases::fail_with;
use std::alloc::{AllocError, Global};
use std::fmt::Debug;
use std::test::Fail;

/// Parses an escape behind its backslash. Returns the character and the rest.
fn escape_of(text: &str) -> Option<(char, &str)> {
    let mut characters = text.chars();
    let character = match characters.next()? {
        'n' => '\n',
        'r' => '\r',
        't' => '\t',
        'e' => '\u{1b}',
        'u' => return scalar_of(characters.as_str()),
        _ => return None,
    };
    Some((character, characters.as_str()))
}

/// Parses `{CODE}`. Returns the character and the rest.
fn scalar_of(text: &str) -> Option<(char, &str)> {
    let (digits, rest) = text.strip_prefix('{')?.split_once('}')?;
    let code = u32::from_str_radix(digits, 16).ok()?;
    Some((char::from_u32(code)?, rest))
}

/// Replaces the escapes of a text: `\n`, `\r`, `\t`, `\e` for ESC, `\u{CODE}` and `\\`. Any other backslash is itself.
fn unescaped(alloc: Global, text: &str) -> Result<String, Fail> {
    let mut plain = String::new(alloc);
    let mut is_plain = true;
    for part in text.split('\\') {
        if is_plain {
            plain.push_str(part)?;
            is_plain = false;
        } else if part.is_empty() {
            plain.push('\\')?;
            is_plain = true;
        } else if let Some((character, rest)) = escape_of(part) {
            plain.push(character)?;
            plain.push_str(rest)?;
        } else {
            plain.push('\\')?;
            plain.push_str(part)?;
        }
    }
    Ok(plain)
}

/// Returns the bytes of a text, with `\xHH` for any byte.
pub fn bytes_of(alloc: Global, text: &str) -> Result<Vec<u8>, Fail> {
    let mut bytes = Vec::new(alloc);
    let mut parts = text.split("\\x");
    bytes.extend_from_slice(parts.next().unwrap_or("").as_bytes())?;
    for part in parts {
        push_part(&mut bytes, part)?;
    }
    Ok(bytes)
}

/// Appends the byte of two digits, and the bytes of the text behind them.
fn push_part(bytes: &mut Vec<u8>, part: &str) -> Result<(), Fail> {
    let (digits, rest) = part.split_at_checked(2).ok_or("no byte")?;
    bytes.push(u8::from_str_radix(digits, 16)?)?;
    Ok(bytes.extend_from_slice(rest.as_bytes())?)
}

/// Splits a text at a mark.
pub fn parted(alloc: Global, text: &str, mark: char) -> Result<Vec<String>, AllocError> {
    let mut parts = Vec::new(alloc);
    for part in text.split(mark) {
        parts.push(String::from_str(alloc, part)?)?;
    }
    Ok(parts)
}

/// Returns true for an empty line or a `//` comment.
fn is_no_row(row: &str) -> bool {
    row.is_empty() || row.starts_with("//")
}

/// Returns the input of a row.
fn input_of(alloc: Global, row: &str) -> Result<String, Fail> {
    let (done, _) = row.split_once(" =>").ok_or("no row")?;
    unescaped(alloc, done)
}

/// Returns the wanted output of a row.
fn wanted_of(alloc: Global, row: &str) -> Result<String, Fail> {
    let (_, wanted) = row.split_once(" =>").ok_or("no row")?;
    unescaped(alloc, wanted.strip_prefix(' ').unwrap_or(wanted))
}

/// Appends the row and its output if the output differs from the wanted one.
fn add_unlike(
    alloc: Global,
    unlike: &mut String,
    row: &str,
    played: Result<String, Fail>,
) -> Result<(), Fail> {
    let output = played?;
    let wanted = wanted_of(alloc, row)?;
    if output != wanted {
        write!(unlike, "{row}\n    output: {output:?}\n")?;
    }
    Ok(())
}

/// Plays rows and returns the failed ones, each with its output.
fn unlike_rows<F: FnMut(Global, &str) -> Result<String, Fail>>(
    alloc: Global,
    rows: &str,
    mut play: F,
) -> Result<String, Fail>
    requires { F.IsAlwaysCallable play }
{
    let mut unlike = String::new(alloc);
    for row in rows.lines() {
        if !is_no_row(row) {
            let done = input_of(alloc, row)?;
            add_unlike(alloc, &mut unlike, row, play(alloc, done.as_str()))?;
        }
    }
    Ok(unlike)
}

/// Plays runs of commands and returns the failed ones, each with its output.
fn unlike_runs<F: FnMut(Global, &str) -> Result<String, Fail>>(
    alloc: Global,
    rows: &str,
    mut obey: F,
) -> Result<String, Fail>
    requires { F.IsAlwaysCallable obey }
{
    let mut unlike = String::new(alloc);
    for row in rows.lines() {
        if !is_no_row(row) {
            let done = input_of(alloc, row)?;
            let mut output = String::new(alloc);
            for command in done.split("; ") {
                add_answer(&mut output, obey(alloc, command))?;
            }
            add_unlike(alloc, &mut unlike, row, Ok(output))?;
        }
    }
    Ok(unlike)
}

/// Plays rows and fails with those that have another output. A row is a line `INPUT => OUTPUT`, with escapes; empty
/// lines and `//` comments are skipped.
pub fn expect_rows<F: FnMut(Global, &str) -> Result<String, Fail>>(
    alloc: Global,
    rows: &str,
    play: F,
) -> Result<(), Fail>
    requires { F.IsAlwaysCallable play }
{
    let unlike = unlike_rows(alloc, rows, play)?;
    fail_with(unlike.as_str())
}

/// Plays rows whose input is a list of commands and whose output is the list of their answers, both separated by `; `,
/// and fails with those that have another output. Empty answers are left out.
pub fn expect_runs<F: FnMut(Global, &str) -> Result<String, Fail>>(
    alloc: Global,
    rows: &str,
    obey: F,
) -> Result<(), Fail>
    requires { F.IsAlwaysCallable obey }
{
    let unlike = unlike_runs(alloc, rows, obey)?;
    fail_with(unlike.as_str())
}

/// Appends an answer, with a separator if it is needed.
fn add_answer(output: &mut String, obeyed: Result<String, Fail>) -> Result<(), Fail> {
    let answer = obeyed?;
    if !output.is_empty() && !answer.is_empty() {
        output.push_str("; ")?;
    }
    Ok(output.push_str(answer.as_str())?)
}

/// Returns the fault of a failed call, or an empty text.
pub fn fault_text<E: Debug>(alloc: Global, answer: &Result<(), E>) -> Result<String, AllocError> {
    match answer {
        Ok(()) => Ok(String::new(alloc)),
        Err(fault) => format!(in alloc; "{fault:?}"),
    }
}
