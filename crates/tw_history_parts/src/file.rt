//! How a line stands in a file, and reading the lines of a file into a history.

ghost use Rattle.std.specs.Prelude.{◌≡◌, ◌++◌, ◌<◌, [], Contains, IfOk, IfSome, OnOk, None, Some, length, map, option_map, string_bytes, OnErr};
ghost use Rattle.tw_history_parts.specs.HistoryFile.{IsCutAtFeed, behind_first_feed, cut_end, escape_of, escaped_byte, if_text, line_of, unescaped, whole_part, with_byte, written_line, written_lines, is_cut_off, lines_in, lost_in, AddsAll, AddsSome};

use std::alloc::{AllocError, Global};
use std::fmt;
use tw_line::History;

/// What of a file is not read.
#[derive(Clone, Copy, Debug, PartialEq, Eq)]
pub enum Unread {
    /// The whole file: it is no regular file, as a folder, or may not be read.
    File,
    /// This number of lines: they are not UTF-8, have a backslash before another byte than a backslash or an `n`, or the
    /// last one is cut off.
    Lines(usize),
}

impl fmt::Display for Unread {
    fn fmt<W: fmt::Write>(&self, f: &mut fmt::Formatter<W>) -> fmt::Result {
        match self {
            Unread::File => f.write_str("the file can't be read"),
            Unread::Lines(count) => write!(f, "lines that can't be read: {count}"),
        }
    }
}

/// Adds what a byte of a line is written as.
fn push_escaped(written: &mut Vec<u8>, byte: u8) -> Result<(), AllocError>
    ensures { OnOk result (written.new.items ≡ written.old.items ++ escaped_byte byte) }
{
    match byte {
        b'\\' => written.extend_from_slice(b"\\\\"),
        b'\n' => written.extend_from_slice(b"\\n"),
        _ => Ok(written.push(byte)?),
    }
}

/// Returns a line as it is written: a backslash as two, a line feed as a backslash and an `n`, and a line feed at its
/// end.
pub fn written_line(alloc: Global, line: &str) -> Result<Vec<u8>, AllocError>
    ensures { IfOk result (λ written. written.items ≡ written_line line.now) }
{
    let mut written = Vec::new(alloc);
    let bytes = line.as_bytes();
    for byte in bytes {
        push_escaped(&mut written, *byte)?;
    }
    written.push(b'\n')?;
    Ok(written)
}

/// What is written behind a last line that is cut off: it ends the line, which is none then, however it was cut.
pub const CUT_END: &[u8] = b"\\-\\\n";

/// Splits bytes at the first line feed, if there is one.
fn split_line(bytes: &[u8]) -> Option<(&[u8], &[u8])>
    ensures cut { IfSome result (λ parts. IsCutAtFeed bytes.now parts.0.now parts.1.now) }
    ensures shorter { IfSome result (λ parts. length parts.1.now < length bytes.now) }
    ensures none { result ≡ None → ¬ (Contains bytes.now 10) }
{
    let end = bytes.iter().position(|byte| *byte == b'\n')?;
    Some((&bytes[..end], &bytes[end + 1..]))
}

/// Returns the byte that a backslash and this byte stand for.
fn escape_of(byte: u8) -> Option<u8>
    ensures { result ≡ escape_of byte }
{
    match byte {
        b'\\' => Some(b'\\'),
        b'n' => Some(b'\n'),
        _ => None,
    }
}

/// Returns the first byte that a text stands for, and the text after it. There is none in an empty text, and none if a
/// backslash stands before another byte or at the end.
fn split_byte(text: &[u8]) -> Option<(u8, &[u8])>
    ensures some { IfSome result (λ parts.
        unescaped text.now ≡ with_byte (Some parts.0) (unescaped parts.1.now)) }
    ensures shorter { IfSome result (λ parts. length parts.1.now < length text.now) }
    ensures none { result ≡ None → 0 < length text.now → unescaped text.now ≡ None }
{
    match text.split_first()? {
        (b'\\', escape) => {
            let (byte, rest) = escape.split_first()?;
            Some((escape_of(*byte)?, rest))
        }
        (byte, rest) => Some((*byte, rest)),
    }
}

/// Returns the bytes that a text of a file stands for, or `None` if a backslash stands before another byte or at the
/// end.
fn unescape(alloc: Global, text: &[u8]) -> Result<Option<Vec<u8>>, AllocError>
    ensures { IfOk result (λ bytes. option_map (λ bytes. bytes.items) bytes ≡ unescaped text.now) }
{
    let mut bytes = Vec::new(alloc);
    let mut rest = text;
    while let Some((byte, after)) = split_byte(rest) {
        bytes.push(byte)?;
        rest = after;
    }
    Ok(rest.is_empty().then_some(bytes))
}

/// Returns bytes as a text, if they are UTF-8.
#[tactic(auto, using(crate::proofs::ReadingLemmas::text_is, crate::proofs::ReadingLemmas::no_text))]
fn text_of(bytes: Vec<u8>) -> Option<String>
    ensures { option_map string_bytes result ≡ if_text bytes.items }
{
    match String::from_utf8(bytes) {
        Ok(text) => Some(text),
        Err(_) => None,
    }
}

/// Returns the line that a text of a file stands for, if it stands for one. An empty text stands for none.
fn line_of(alloc: Global, text: &[u8]) -> Result<Option<String>, AllocError>
    ensures { IfOk result (λ line. option_map string_bytes line ≡ line_of text.now) }
{
    if text.is_empty() {
        return Ok(None);
    }
    Ok(unescape(alloc, text)?.and_then(text_of))
}

/// Returns whether the last line is cut off: no line feed ends it.
pub fn is_cut_off(bytes: &[u8]) -> bool
    ensures { result ≡ is_cut_off bytes.now }
{
    bytes.last().is_some_and(|last| *last != b'\n')
}

/// Returns the part of the end of a file in which its lines are whole: what comes after the first line feed, or all of
/// it if there is none.
#[tactic(auto, using(crate::proofs::ReadingLemmas::part_cut, crate::proofs::ReadingLemmas::part_uncut))]
pub fn whole_part(end: &[u8]) -> &[u8]
    ensures { result.now ≡ whole_part end.now }
{
    match split_line(end) {
        Some((_, rest)) => rest,
        None => end,
    }
}

/// What was read of a file.
#[derive(Drop)]
pub struct LinesRead {
    /// The lines, the oldest first.
    pub lines: Vec<String>,
    /// How many texts can't be read: the last one if no line feed ends it, those with a backslash before another byte
    /// than a backslash or an `n`, and those that are not UTF-8.
    pub lost: usize,
}

/// Reads the lines of a file. An empty one is passed over.
#[tactic(auto, using(crate::proofs::ReadingLemmas::lost_cut, crate::proofs::ReadingLemmas::lost_none, crate::proofs::ReadingLemmas::lines_cut, crate::proofs::ReadingLemmas::unended_line))]
pub fn read_lines(alloc: Global, bytes: &[u8]) -> Result<LinesRead, AllocError>
    ensures lines { IfOk result (λ read. map string_bytes read.lines.items ≡ lines_in bytes.now) }
    ensures lost { IfOk result (λ read. read.lost ≡ lost_in bytes.now) }
{
    let mut lines = Vec::new(alloc);
    let mut rest = bytes;
    let mut lost = 0;
    while let Some((text, after)) = split_line(rest) {
        match line_of(alloc, text)? {
            Some(line) => lines.push(line)?,
            None if text.is_empty() => {}
            None => lost += 1,
        }
        rest = after;
    }
    if is_cut_off(bytes) {
        lost += 1;
    }
    Ok(LinesRead { lines, lost })
}

/// Adds lines to a history, in their order. If memory is lacking, the first ones may have been added.
#[tactic(auto, using(crate::proofs::ReadingLemmas::passes_nothing, crate::proofs::ReadingLemmas::passes_all))]
pub fn add_lines<L: History>(history: &mut L, lines: &[String]) -> Result<(), AllocError>
    ensures added { OnOk result (AddsAll L.add_gives (map string_bytes lines.now)
        history.old history.new) }
    ensures refused { OnErr result (AddsSome L.lines L.add_gives (map string_bytes lines.now)
        history.old history.new) }
{
    for line in lines {
        history.add(line)?;
    }
    Ok(())
}
