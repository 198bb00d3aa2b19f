//! A history whose lines are written, and read again.

use crate::recent::lines_text;
use std::alloc::Global;
use std::io::{self, Error, ErrorKind, Write};
use std::test::Fail;
use std::{env, fs};
use test_cases::{bytes_of, expect_rows};
use tw_history_parts::{FileHistory, RecentHistory, Unread, WrittenHistory};
use tw_line::History;

/// How many lines the histories keep.
const LINES_KEPT: usize = 10;

/// A writer to memory that fails once, after `calls_left` calls, and counts how often it is flushed.
#[derive(Drop)]
struct Full {
    bytes: Vec<u8>,
    calls_left: usize,
    flushes: usize,
}

impl Full {
    fn new(alloc: Global, calls_left: usize) -> Self {
        Full {
            bytes: Vec::new(alloc),
            calls_left,
            flushes: 0,
        }
    }

    /// Returns what was written, and how often it was flushed.
    fn into_text(self) -> Result<(String, usize), Fail> {
        let Full {
            bytes,
            calls_left: _,
            flushes,
        } = self;
        Ok((String::from_utf8(bytes)?, flushes))
    }
}

impl Write for Full {
    fn write(&mut self, buf: &[u8]) -> io::Result<usize> {
        let Some(left) = self.calls_left.checked_sub(1) else {
            self.calls_left = usize::MAX;
            return Err(Error::from(ErrorKind::StorageFull));
        };
        self.calls_left = left;
        match self.bytes.extend_from_slice(buf) {
            Ok(()) => Ok(buf.len()),
            Err(_) => Err(Error::from(ErrorKind::OutOfMemory)),
        }
    }

    fn flush(&mut self) -> io::Result<()> {
        self.flushes = self.flushes.saturating_add(1);
        Ok(())
    }
}

/// Returns the lines of a file in which lines are kept, and what was not read of it.
fn read(alloc: Global, text: &str) -> Result<String, Fail> {
    let bytes = bytes_of(alloc, text)?;
    read_bytes(alloc, &bytes)
}

fn read_bytes(alloc: Global, bytes: &[u8]) -> Result<String, Fail> {
    let history = resume(alloc, bytes, Vec::new(alloc))?;
    let lines = lines_text(alloc, &history)?;
    match history.unread() {
        Some(unread) => Ok(format!(in alloc; "{unread}; {lines}")?),
        None => Ok(lines),
    }
}

/// Resumes the history of a file over a writer.
fn resume<W: Write + Drop>(
    alloc: Global,
    bytes: &[u8],
    writer: W,
) -> Result<WrittenHistory<RecentHistory, W>, Fail> {
    let history = RecentHistory::new(alloc, LINES_KEPT);
    Ok(WrittenHistory::resume(alloc, history, bytes, Some(writer))?)
}

/// Returns how often what is written for lines that are added to those of a file is flushed, and what it is:
/// `BYTES<LINE|LINE..`.
fn write(alloc: Global, command: &str) -> Result<String, Fail> {
    let (text, lines) = command.split_once('<').ok_or("no lines")?;
    let before = bytes_of(alloc, text)?;
    let mut writer = Full::new(alloc, usize::MAX);
    {
        let mut history = resume(alloc, &before, &mut writer)?;
        for line in lines.split('|') {
            history.add(line)?;
        }
    }
    let (written, flushes) = writer.into_text()?;
    Ok(format!(in alloc; "{flushes} {written}")?)
}

/// Returns what `read` returns for the bytes of a file once lines are added to it: `BYTES<LINE|LINE..`.
fn write_and_read(alloc: Global, command: &str) -> Result<String, Fail> {
    let (text, lines) = command.split_once('<').ok_or("no lines")?;
    let mut bytes = bytes_of(alloc, text)?;
    let before = bytes.clone()?;
    {
        let mut history = resume(alloc, &before, &mut bytes)?;
        for line in lines.split('|') {
            history.add(line)?;
        }
    }
    read_bytes(alloc, &bytes)
}

/// Returns the failure after each line that is added, and the lines.
fn failures<W: Write + Drop>(
    alloc: Global,
    history: &mut WrittenHistory<RecentHistory, W>,
    lines: &str,
) -> Result<String, Fail> {
    let mut output = String::new(alloc);
    for line in lines.split('|') {
        history.add(line)?;
        write!(output, "{} ", history.take_failure())?;
    }
    output.push_str(lines_text(alloc, history)?.as_str())?;
    Ok(output)
}

/// Adds lines over a writer that fails once, and returns what it has too: `CALLS BYTES<LINE|LINE..`.
fn write_full(alloc: Global, command: &str) -> Result<String, Fail> {
    let (calls, command) = command.split_once(' ').ok_or("no calls")?;
    let (text, lines) = command.split_once('<').ok_or("no lines")?;
    let mut full = Full::new(alloc, calls.parse()?);
    let before = bytes_of(alloc, text)?;
    let told = failures(alloc, &mut resume(alloc, &before, &mut full)?, lines)?;
    let (written, _) = full.into_text()?;
    Ok(format!(in alloc; "{told}; {written:?}")?)
}

/// Adds lines where none is written: `unwritten LINES` where it ought to be, `memory LINES` where it is not.
fn write_nowhere(alloc: Global, word: &str, lines: &str) -> Result<String, Fail> {
    let history = RecentHistory::new(alloc, LINES_KEPT);
    let mut history: WrittenHistory<RecentHistory, Full> = match word {
        "unwritten" => WrittenHistory::resume(alloc, history, b"", None)?,
        _ => WrittenHistory::in_memory(alloc, history),
    };
    failures(alloc, &mut history, lines)
}

/// Adds a line of `count` letters, and returns the number of bytes written, and `true` if reading them gives the line.
fn write_long(alloc: Global, count: &str) -> Result<String, Fail> {
    let line = "x".repeat(alloc, count.parse()?)?;
    let mut bytes = Vec::new(alloc);
    {
        let mut history = resume(alloc, b"", &mut bytes)?;
        history.add(line.as_str())?;
    }
    let again = resume(alloc, &bytes, Vec::new(alloc))?;
    let is_same = match again.get(alloc, 0)? {
        Some(read) => read.as_str() == line.as_str(),
        None => false,
    };
    Ok(format!(in alloc; "{} {is_same}", bytes.len())?)
}

/// Runs `read BYTES`, `write BYTES<LINES`, `again BYTES<LINES`, `long LETTERS`, `full CALLS BYTES<LINES`, `unwritten LINES` or
/// `memory LINES`.
fn obey(alloc: Global, command: &str) -> Result<String, Fail> {
    let (word, rest) = command.split_once(' ').unwrap_or((command, ""));
    match word {
        "read" => read(alloc, rest),
        "write" => write(alloc, rest),
        "again" => write_and_read(alloc, rest),
        "long" => write_long(alloc, rest),
        "full" => write_full(alloc, rest),
        _ => write_nowhere(alloc, word, rest),
    }
}

const FILES: &str = r#"
// what is no line loses only itself, and is counted
read =>
read one\ntwo\n => "one" "two"
read one\ntwo => lines that can't be read: 1; "one"
read a\\nb\\\\n\n => "a\\nb\\\\n"
read one\ntw\\o\nthree\\\nfour\n => lines that can't be read: 2; "one" "four"
read one\n\xff\n一\n => lines that can't be read: 1; "one" "一"
read \xff\none\n\xfe\ntwo\ncut => lines that can't be read: 3; "one" "two"
read one\r\n => "one\\r"

// an empty line is no entry, and is not counted
read \n\n =>
read one\n\n\ntwo\n => "one" "two"

// lines are written as they are added, and a line that was cut off is ended first
write <ls|a\nb|c:\\new| => 4 ls\na\\nb\nc:\\\\new\n\n
write one\n<two => 1 two\n
write one\ntw<two => 2 \\-\\\ntwo\n
read ls\na\\nb\nc:\\\\new\n\n => "ls" "a\\nb" "c:\\\\new"

// a line that was cut off, wherever, is none in the next session either
again one\ntw<two => lines that can't be read: 1; "one" "two"
again one\ntw\\<two => lines that can't be read: 1; "one" "two"
again one\ntw\\\\<two => lines that can't be read: 1; "one" "two"
again one\n\xe4\xb8<two => lines that can't be read: 1; "one" "two"
again one\n\\<two|| => lines that can't be read: 1; "one" "two"

// however long a line is
long 600 => 601 true
long 5000 => 5001 true
long 70000 => 70001 true

// a failure is reported once, and no line is lost; nothing is written behind it
full 1 <one|two|three => false true false "one" "two" "three"; "one\\n"
full 1 one\ntw<two|three => true false "one" "two" "three"; "\\\\-\\\\\\n"
full 0 one\ntw<two|three => true false "one" "two" "three"; ""
unwritten one|two => true false "one" "two"
memory one|two => false false "one" "two"
"#;

#[test]
fn lines_are_written_and_read(rt: HostRuntime) -> Result<(), Fail> {
    expect_rows(rt.alloc(), FILES, obey)
}

/// Opens the history of a file with these bytes, which keeps `LIMIT` lines, and adds lines: `LIMIT BYTES`, or `LIMIT
/// BYTES<LINE|LINE..`. Returns the failures, the lines, and the bytes that the file has then.
fn open(rt: HostRuntime, path: &str, command: &str) -> Result<String, Fail> {
    let alloc = rt.alloc();
    let (limit, command) = command.split_once(' ').ok_or("no limit")?;
    let (text, lines) = command.split_once('<').unwrap_or((command, ""));
    let before = bytes_of(alloc, text)?;
    fs::write(&rt, path, before.as_slice())?;
    let mut history = FileHistory::open(rt, path, RecentHistory::new(alloc, limit.parse()?))?;
    let told = if lines.is_empty() {
        lines_text(alloc, &history)?
    } else {
        failures(alloc, &mut history, lines)?
    };
    let after = fs::read_to_string(&rt, path)?;
    Ok(format!(in alloc; "{told}; {after:?}")?)
}

const OPENED: &str = r#"
// a file keeps what it has, and lines are written behind it, or after the end of one that was cut off
9 one\ntwo\n => "one" "two"; "one\\ntwo\\n"
9 one\n<two|| three => false false false "one" "two" "" " three"; "one\\ntwo\\n\\n three\\n"
9 <one => false "one"; "one\\n"
9 one\ntw<two => false "one" "two"; "one\\ntw\\\\-\\\\\\ntwo\\n"

// a file of several times as many lines is written anew, and no shorter one
2 a\nb\nc\nd\ne\nf\ng\nh\n<i => false "h" "i"; "g\\nh\\ni\\n"
2 a\nb\nc\nd\ne\nf\ng\n<h => false "g" "h"; "a\\nb\\nc\\nd\\ne\\nf\\ng\\nh\\n"
"#;

/// Returns a path that no other process uses.
fn own_path(rt: HostRuntime) -> Result<String, Fail> {
    let folder = env::temp_dir(&rt)?;
    let id = fs::read_link(&rt, "/proc/self")?;
    Ok(format!(in rt.alloc(); "{}/kept_history_{}", folder.as_str(), id.as_str())?)
}

#[test]
fn files_keep_what_they_have(rt: HostRuntime) -> Result<(), Fail> {
    let path = own_path(rt)?;
    let opened = expect_rows(
        rt.alloc(),
        OPENED,
        |_, command| open(rt, path.as_str(), command),
    );
    let removed = fs::remove_file(&rt, path.as_str());
    opened?;
    Ok(removed?)
}

/// A folder can't be read, and is not written.
#[test]
fn what_is_no_file_is_not_written(rt: HostRuntime) -> Result<(), Fail> {
    let alloc = rt.alloc();
    let mut history = FileHistory::open(rt, ".", RecentHistory::new(alloc, LINES_KEPT))?;
    assert_eq!(rt; history.unread(), Some(Unread::File));
    let told = failures(alloc, &mut history, "one|two")?;
    assert_eq!(rt; told.as_str(), r#"true false "one" "two""#);
    Ok(())
}
