//! Writes, flushes and reads that fail once, at a terminal and a reader that work again afterwards.

use super::application::rows_shown;
use std::alloc::Global;
use std::io::{self, ErrorKind, Read, Write};
use std::test::Fail;
use test_cases::expect_rows;
use tw_device::{AnsiTerminal, Answer, DeviceTerminal, Joined, KeyReader, read_line_from};
use tw_lineedit::NopLineEditorHost;
use tw_sparing::PatientTerminal;
use tw_terminal::ScreenSize;

/// The size of the screen.
const SIZE: ScreenSize = ScreenSize { rows: 8, cols: 12 };

/// A writer that keeps what it takes. The write or the flush of one number, from 1, fails; the write takes its first
/// half.
#[derive(Drop)]
struct Flaky<'a> {
    taken: &'a mut Vec<u8>,
    flushes: &'a mut usize,
    writes: usize,
    refused_write: usize,
    refused_flush: usize,
}

impl<'a> Flaky<'a> {
    fn new(
        taken: &'a mut Vec<u8>,
        flushes: &'a mut usize,
        refused_write: usize,
        refused_flush: usize,
    ) -> Self {
        Flaky {
            taken,
            flushes,
            writes: 0,
            refused_write,
            refused_flush,
        }
    }
}

impl Write for Flaky<'_> {
    fn write(&mut self, buf: &[u8]) -> io::Result<usize> {
        self.writes = self.writes.saturating_add(1);
        if self.writes == self.refused_write {
            let (half, _) = buf.split_at(buf.len() / 2);
            self.taken.extend_from_slice(half)?;
            return Err(io::Error::from(ErrorKind::WouldBlock));
        }
        self.taken.extend_from_slice(buf)?;
        Ok(buf.len())
    }

    fn flush(&mut self) -> io::Result<()> {
        *self.flushes = self.flushes.saturating_add(1);
        if *self.flushes == self.refused_flush {
            return Err(io::Error::from(ErrorKind::WouldBlock));
        }
        Ok(())
    }
}

/// A reader of one byte at a time, of which the read of one number, from 1, fails.
#[derive(Drop)]
struct Slow<'a> {
    bytes: &'a [u8],
    taken: usize,
    reads: usize,
    refused: usize,
}

impl Read for Slow<'_> {
    fn read(&mut self, buf: &mut [u8]) -> io::Result<usize> {
        self.reads = self.reads.saturating_add(1);
        if self.reads == self.refused {
            return Err(io::Error::from(ErrorKind::WouldBlock));
        }
        match (self.bytes.get(self.taken), buf.first_mut()) {
            (Some(byte), Some(place)) => {
                *place = *byte;
                self.taken = self.taken.saturating_add(1);
                Ok(1)
            }
            _ => Ok(0),
        }
    }
}

/// Reads a line of these keys, and returns true if it is answered.
fn reads<'a, T: DeviceTerminal>(
    alloc: Global,
    device: &mut Joined<KeyReader<&'a [u8]>, T>,
    keys: &'a str,
) -> bool {
    let mut host = NopLineEditorHost::new(alloc);
    device.source = KeyReader::new(alloc, keys.as_bytes());
    let answer = read_line_from(alloc, device, &mut host, "> ");
    matches!(answer, Ok(Answer::Line(_)))
}

/// Reads three lines, and returns true for each that is answered.
fn read_three<T: DeviceTerminal>(alloc: Global, terminal: T) -> Result<[bool; 3], Fail>
where
    T: Drop,
{
    let mut device = Joined::new(KeyReader::new(alloc, b"".as_slice()), terminal);
    let first = reads(alloc, &mut device, "ab\u{2}x\r");
    let second = reads(alloc, &mut device, "cd\r");
    let third = reads(alloc, &mut device, "ef\r");
    Ok([first, second, third])
}

/// Reads three lines at the terminal of a row, `KIND write` or `KIND flush`, once for each of the first calls that
/// fails. Returns how often a reading was refused, and the first screen on which a reading after it does not stand as
/// it should.
fn play(alloc: Global, row: &str) -> Result<String, Fail> {
    let (kind, call) = row.split_once(' ').ok_or("no call")?;
    let mut refused: usize = 0;
    for number in 1..40 {
        let mut taken = Vec::new(alloc);
        let mut flushes = 0;
        let (write, flush) = if call == "write" {
            (number, 0)
        } else {
            (0, number)
        };
        let writer = Flaky::new(&mut taken, &mut flushes, write, flush);
        let answered = match kind {
            "ansi" => read_three(alloc, AnsiTerminal::new(alloc, writer, SIZE))?,
            _ => read_three(alloc, PatientTerminal::new(alloc, writer, SIZE))?,
        };
        if answered != [true, true, true] {
            refused = refused.saturating_add(1);
        }
        let shown = rows_shown(alloc, taken.as_slice())?;
        if answered[2] && !shown.ends_with("/> ef") {
            return Ok(format!(in alloc; "{number}: {shown}")?);
        }
    }
    Ok(format!(in alloc; "{refused}")?)
}

/// The readings have 5, 3 and 3 keys, so 7, 5 and 5 batches with the first painting and the closing one. Of those a
/// patient terminal sends the first, the last and the closing one.
const FAULTS: &str = "\
ansi write => 17
ansi flush => 3
patient write => 9
patient flush => 3
";

/// A call that fails once refuses its reading, and the next one stands below what is shown.
#[test]
fn one_fault_refuses_one_reading(rt: HostRuntime) -> Result<(), Fail> {
    expect_rows(rt.alloc(), FAULTS, play)
}

/// Reads a line of a reader whose read of this number fails, and then on. Returns both answers.
fn read_again(alloc: Global, row: &str) -> Result<String, Fail> {
    let mut host = NopLineEditorHost::new(alloc);
    let reader = Slow {
        bytes: b"ab\rcd\r",
        taken: 0,
        reads: 0,
        refused: row.parse()?,
    };
    let mut taken = Vec::new(alloc);
    let mut flushes = 0;
    let writer = Flaky::new(&mut taken, &mut flushes, 0, 0);
    let terminal = AnsiTerminal::new(alloc, writer, SIZE);
    let mut device = Joined::new(KeyReader::new(alloc, reader), terminal);
    let mut told = String::new(alloc);
    for _ in 0..2 {
        let answer = read_line_from(alloc, &mut device, &mut host, "> ");
        match &answer {
            Ok(Answer::Line(line)) => told.push_str(line.as_str())?,
            Ok(_) => told.push_str("-")?,
            Err(_) => told.push_str("refused ")?,
        }
    }
    Ok(told)
}

/// A read that fails refuses its reading, and no byte is lost.
const READS: &str = "\
1 => refused ab
2 => refused b
4 => abrefused 
9 => abcd
";

#[test]
fn one_fault_loses_no_byte(rt: HostRuntime) -> Result<(), Fail> {
    expect_rows(rt.alloc(), READS, read_again)
}
