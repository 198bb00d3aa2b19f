//! What a terminal shows each time that its reader is asked: no painting is kept back then.

use super::application::rows_shown;
use std::alloc::Global;
use std::cell::Cell;
use std::io::{self, Read, Write};
use std::test::Fail;
use test_cases::{bytes_of, expect_rows};
use tw_device::{AnsiTerminal, DeviceTerminal, Joined, KeyReader, read_line_from};
use tw_lineedit::NopLineEditorHost;
use tw_sparing::PatientTerminal;
use tw_terminal::ScreenSize;

/// The size of the screen.
const SIZE: ScreenSize = ScreenSize { rows: 8, cols: 12 };

/// A writer that keeps what it takes, and tells its length.
#[derive(Drop)]
struct Told<'a> {
    taken: &'a mut Vec<u8>,
    len: &'a Cell<usize>,
}

impl Write for Told<'_> {
    fn write(&mut self, buf: &[u8]) -> io::Result<usize> {
        self.taken.extend_from_slice(buf)?;
        self.len.set(self.taken.len());
        Ok(buf.len())
    }

    fn flush(&mut self) -> io::Result<()> {
        Ok(())
    }
}

/// A reader of one byte at a time, which notes how much is written each time that it is asked.
#[derive(Drop)]
struct Noting<'a> {
    bytes: &'a [u8],
    len: &'a Cell<usize>,
    noted: &'a mut Vec<usize>,
}

impl Read for Noting<'_> {
    fn read(&mut self, buf: &mut [u8]) -> io::Result<usize> {
        self.noted.push(self.len.get())?;
        match (self.bytes.split_first(), buf.first_mut()) {
            (Some((byte, more)), Some(place)) => {
                *place = *byte;
                self.bytes = more;
                Ok(1)
            }
            _ => Ok(0),
        }
    }
}

/// Reads a line of the keys, and ignores it.
fn read<T: DeviceTerminal>(alloc: Global, reader: Noting<'_>, terminal: T) -> Result<(), Fail>
where
    T: Drop,
{
    let mut host = NopLineEditorHost::new(alloc);
    let mut device = Joined::new(KeyReader::new(alloc, reader), terminal);
    let _line = read_line_from(alloc, &mut device, &mut host, "> ")?;
    Ok(())
}

/// Reads a line at the terminal of a row, `KIND KEYS`. Returns what is shown each time that the reader is asked.
fn play(alloc: Global, row: &str) -> Result<String, Fail> {
    let (kind, keys) = row.split_once(' ').ok_or("no keys")?;
    let keys = bytes_of(alloc, keys)?;
    let len = Cell::new(0);
    let mut taken = Vec::new(alloc);
    let mut noted = Vec::new(alloc);
    let writer = Told {
        taken: &mut taken,
        len: &len,
    };
    let reader = Noting {
        bytes: keys.as_slice(),
        len: &len,
        noted: &mut noted,
    };
    match kind {
        "ansi" => read(alloc, reader, AnsiTerminal::new(alloc, writer, SIZE))?,
        _ => read(alloc, reader, PatientTerminal::new(alloc, writer, SIZE))?,
    }
    let mut shown = Vec::new(alloc);
    for written in &noted {
        let bytes = taken.get(..*written).ok_or("no such length")?;
        shown.push(rows_shown(alloc, bytes)?)?;
    }
    Ok(shown.join(alloc, "|")?)
}

const ASKED: &str = r"
ansi abc\x0d => >|> a|> ab|> abc
patient abc\x0d => >|> a|> ab|> abc
ansi ab\x02X\x08\x0d => >|> a|> ab|> ab|> aXb|> ab
patient ab\x02X\x08\x0d => >|> a|> ab|> ab|> aXb|> ab
patient abcdefghijk\x0d => >|> a|> ab|> abc|> abcd|> abcde|> abcdef|> abcdefg|> abcdefgh|> abcdefghi|> abcdefghij|> abcdefghij/k
";

#[test]
fn paintings_are_sent_before_the_reader_is_asked(rt: HostRuntime) -> Result<(), Fail> {
    expect_rows(rt.alloc(), ASKED, play)
}
