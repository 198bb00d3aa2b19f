//! Readers and writers that fail, or give and take little at a time.

use script_player::{RunFault, run};
use std::alloc::Global;
use std::io;
use std::io::{ErrorKind, Read, Write};
use std::test::Fail;
use test_cases::{expect_cases, hold, pair_of};

const SCRIPT: &str = "\
cols 10
type ab
key Left
type X
key Enter
read
";

const OUTPUT: &str = "\
line aXb
|> aXb     |
cursor 0 4
end 1 0
";

/// A reader of a text, at most `most` bytes a read, whose read fails once `reads` are done.
#[derive(Drop)]
struct Reader<'a> {
    rest: &'a [u8],
    most: usize,
    reads: usize,
}

impl Read for Reader<'_> {
    fn read(&mut self, buf: &mut [u8]) -> io::Result<usize> {
        if self.reads == 0 {
            return Err(io::Error::from(ErrorKind::Interrupted));
        }
        self.reads -= 1;
        let count = self.rest.len().min(self.most).min(buf.len());
        buf[..count].copy_from_slice(&self.rest[..count]);
        self.rest = &self.rest[count..];
        Ok(count)
    }
}

/// A reader that gives one line feed a read, without end, and counts the reads.
#[derive(Drop)]
struct LineFeeds {
    reads: u64,
    widest: usize,
}

impl Read for LineFeeds {
    fn read(&mut self, buf: &mut [u8]) -> io::Result<usize> {
        self.reads = self.reads.saturating_add(1);
        self.widest = self.widest.max(buf.len());
        match buf {
            [] => Ok(0),
            [first, ..] => {
                *first = b'\n';
                Ok(1)
            }
        }
    }
}

/// A writer that takes at most `room` bytes a write and fails once `writes` of them are done, and whose
/// flush may fail.
#[derive(Drop)]
struct Writer {
    writes: usize,
    room: usize,
    flushes: bool,
    taken: Vec<u8>,
}

impl Write for Writer {
    fn write(&mut self, buf: &[u8]) -> io::Result<usize> {
        if self.writes == 0 {
            return Err(io::Error::from(ErrorKind::Interrupted));
        }
        self.writes -= 1;
        let count = self.room.min(buf.len());
        self.taken.extend_from_slice(&buf[..count])?;
        Ok(count)
    }

    fn flush(&mut self) -> io::Result<()> {
        if self.flushes {
            Ok(())
        } else {
            Err(io::Error::from(ErrorKind::Interrupted))
        }
    }
}

/// Fails unless a beginning of the output was written. Adds how the run ended and how much was written.
fn add_end(outcome: &mut String, ended: &Result<(), RunFault>, written: &[u8]) -> Result<(), Fail> {
    let is_beginning = OUTPUT.as_bytes().starts_with(written);
    hold(is_beginning, outcome.as_str(), "another output")?;
    write!(outcome, "{ended:?} {}\n", written.len())?;
    Ok(())
}

/// Runs the script by a reader of `MOST READS`, and adds how the run ends and how much is then written.
fn add_reads(alloc: Global, line: &str, outcome: &mut String) -> Result<(), Fail> {
    let (most, reads) = pair_of(line)?;
    let mut reader = Reader {
        rest: SCRIPT.as_bytes(),
        most,
        reads,
    };
    let mut written = Vec::new(alloc);
    let ended = run(alloc, &mut reader, &mut written);
    add_end(outcome, &ended, written.as_slice())
}

/// Runs the script by a reader of each line `MOST READS`, and returns how each run ends and how much is then written.
fn play_reads(alloc: Global, lines: &str) -> Result<String, Fail> {
    let mut outcome = String::new(alloc);
    for line in lines.lines() {
        add_reads(alloc, line, &mut outcome)?;
    }
    Ok(outcome)
}

/// Short reads give the whole script; a read that fails ends the run with nothing written.
const READS: &str = "\
1 99
2 99
3 99
7 99
4096 99
9999 99
8 0
8 1
8 6
--
Ok(()) 41
Ok(()) 41
Ok(()) 41
Ok(()) 41
Ok(()) 41
Ok(()) 41
Err(Io) 0
Err(Io) 0
Err(Io) 0
==
";

#[test]
fn readers_give_the_whole_script_or_fail(rt: HostRuntime) -> Result<(), Fail> {
    expect_cases(rt.alloc(), READS, play_reads)
}

#[test]
fn a_script_without_end_is_given_up(rt: HostRuntime) {
    let mut reader = LineFeeds {
        reads: 0,
        widest: 0,
    };
    let mut written = Vec::new(rt.alloc());
    let ended = run(rt.alloc(), &mut reader, &mut written);
    assert_eq!(rt; ended, Err(RunFault::Io));
    assert_eq!(rt; written.len(), 0);
    assert_eq!(rt; (reader.reads, reader.widest), (1_048_576, 4096));
}

/// Runs the script by a writer of `ROOM WRITES`, which flushes unless the line ends with `!`, and adds how the run ends
/// and how much is then written.
fn add_writes(alloc: Global, line: &str, outcome: &mut String) -> Result<(), Fail> {
    let (room, writes) = pair_of(line.trim_end_matches('!'))?;
    let mut writer = Writer {
        writes,
        room,
        flushes: !line.ends_with('!'),
        taken: Vec::new(alloc),
    };
    let ended = run(alloc, &mut SCRIPT.as_bytes(), &mut writer);
    add_end(outcome, &ended, writer.taken.as_slice())
}

/// Runs the script by a writer of each line `ROOM WRITES`, and returns how each run ends and how much is then written.
fn play_writes(alloc: Global, lines: &str) -> Result<String, Fail> {
    let mut outcome = String::new(alloc);
    for line in lines.lines() {
        add_writes(alloc, line, &mut outcome)?;
    }
    Ok(outcome)
}

/// Short writes give the whole output; a write that fails ends the run, and a flush that fails ends it after the whole
/// output.
const WRITES: &str = "\
1 99
2 99
5 99
99 99
99 0
0 99
3 1
1 40
99 99!
--
Ok(()) 41
Ok(()) 41
Ok(()) 41
Ok(()) 41
Err(Io) 0
Err(Io) 0
Err(Io) 3
Err(Io) 40
Err(Io) 41
==
";

#[test]
fn writers_take_the_whole_output_or_fail(rt: HostRuntime) -> Result<(), Fail> {
    expect_cases(rt.alloc(), WRITES, play_writes)
}
