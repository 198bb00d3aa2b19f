//! The streams of a terminal.

use crate::error::PromptError;
use std::alloc::{AllocError, Global};
use std::cell::Cell;
use std::fs::{self, File, OpenOptions};
use std::io::{self, ErrorKind, Read, Write};
use std::os::unix::fs::FileTypeExt;
use std::rc::Rc;
use std::rt::{Stdin, Stdout};

/// How many times a call is made that signals interrupt.
const TRIES: usize = 100;

/// The file of standard input.
const STANDARD_INPUT: &str = "/dev/stdin";

/// The last error of the streams of a terminal, which both of them share. `TerminalFault` does not say what it was.
#[derive(Drop)]
pub struct LastError(Rc<Cell<Option<io::Error>>>);

impl LastError {
    fn new(alloc: Global) -> Result<Self, AllocError> {
        Ok(LastError(Rc::new(alloc, Cell::new(None))?))
    }

    /// Returns another owner of it.
    fn shared(&self) -> Result<Self, AllocError> {
        Ok(LastError(self.0.clone()?))
    }

    /// Takes the error.
    pub fn take(&self) -> Option<io::Error> {
        self.0.replace(None)
    }

    /// Keeps an error. Returns one of the same kind, or of the kind `Other` for an interrupted call, so that nobody
    /// makes it again.
    fn keep(&self, error: io::Error) -> io::Error {
        let kind = match error.kind() {
            ErrorKind::Interrupted => ErrorKind::Other,
            kind => kind,
        };
        self.0.set(Some(error));
        io::Error::from(kind)
    }
}

#[derive(Drop)]
enum InputStream {
    Standard(Stdin),
    File(File),
}

#[derive(Drop)]
enum OutputStream {
    Standard(Stdout),
    File(File),
}

/// What is typed: standard input, or the file of a terminal. A call that a signal interrupts is made again, up to 100
/// times.
#[derive(Drop)]
pub struct TerminalInput {
    stream: InputStream,
    errors: LastError,
    is_terminal: bool,
    reads_ahead: bool,
}

/// What is shown: standard output, or the file of a terminal. A call that a signal interrupts is made again, up to 100
/// times.
#[derive(Drop)]
pub struct TerminalOutput {
    stream: OutputStream,
    errors: LastError,
}

impl TerminalInput {
    /// Returns the input to be read up to all that was typed, so that it is known what is at hand. What was read after
    /// the last line is lost.
    pub fn reading_ahead(mut self) -> Self {
        self.reads_ahead = true;
        self
    }

    /// Returns true if it is to be read up to all that was typed.
    pub fn reads_ahead(&self) -> bool {
        self.reads_ahead
    }

    /// Returns true if it is a terminal, as far as the system says so, and not a file of keys.
    pub fn is_terminal(&self) -> bool {
        self.is_terminal
    }

    /// Returns where the errors of both streams are kept.
    pub fn errors(&self) -> Result<LastError, AllocError> {
        self.errors.shared()
    }
}

impl Read for InputStream {
    fn read(&mut self, buf: &mut [u8]) -> io::Result<usize> {
        match self {
            InputStream::Standard(input) => input.read(buf),
            InputStream::File(file) => file.read(buf),
        }
    }
}

impl Read for TerminalInput {
    fn read(&mut self, buf: &mut [u8]) -> io::Result<usize> {
        for _ in 0..TRIES {
            match self.stream.read(buf) {
                Err(error) if error.kind() == ErrorKind::Interrupted => {}
                Err(error) => return Err(self.errors.keep(error)),
                Ok(count) => return Ok(count),
            }
        }
        Err(self.errors.keep(io::Error::from(ErrorKind::Interrupted)))
    }
}

impl Write for OutputStream {
    fn write(&mut self, buf: &[u8]) -> io::Result<usize> {
        match self {
            OutputStream::Standard(output) => output.write(buf),
            OutputStream::File(file) => file.write(buf),
        }
    }

    fn flush(&mut self) -> io::Result<()> {
        match self {
            OutputStream::Standard(output) => output.flush(),
            OutputStream::File(file) => file.flush(),
        }
    }
}

impl Write for TerminalOutput {
    fn write(&mut self, buf: &[u8]) -> io::Result<usize> {
        for _ in 0..TRIES {
            match self.stream.write(buf) {
                Err(error) if error.kind() == ErrorKind::Interrupted => {}
                Err(error) => return Err(self.errors.keep(error)),
                Ok(count) => return Ok(count),
            }
        }
        Err(self.errors.keep(io::Error::from(ErrorKind::Interrupted)))
    }

    fn flush(&mut self) -> io::Result<()> {
        match self.stream.flush() {
            Err(error) => Err(self.errors.keep(error)),
            Ok(()) => Ok(()),
        }
    }
}

/// Returns true if a path leads to a device of characters, as a terminal is.
fn is_device(rt: HostRuntime, path: &str) -> bool {
    match fs::metadata(&rt, path) {
        Ok(metadata) => metadata.file_type().is_char_device(),
        Err(_) => false,
    }
}

/// Opens a file.
fn open(rt: HostRuntime, options: &OpenOptions, path: &str) -> Result<File, PromptError> {
    options.open(&rt, path).map_err(PromptError::Opening)
}

/// Opens both: the file of a terminal, or standard input and output if none is named. Fails with
/// `PromptError::Opening` if the file can't be opened.
pub fn open_streams(
    rt: HostRuntime,
    file: Option<&str>,
) -> Result<(TerminalInput, TerminalOutput), PromptError> {
    let (input, output) = match file {
        None => (
            InputStream::Standard(rt.stdin()),
            OutputStream::Standard(rt.stdout()),
        ),
        Some(path) => (
            InputStream::File(open(rt, OpenOptions::new().read(true), path)?),
            OutputStream::File(open(rt, OpenOptions::new().write(true), path)?),
        ),
    };
    let errors = LastError::new(rt.alloc())?;
    let input = TerminalInput {
        stream: input,
        errors: errors.shared()?,
        is_terminal: is_device(rt, file.unwrap_or(STANDARD_INPUT)),
        reads_ahead: false,
    };
    Ok((
        input,
        TerminalOutput {
            stream: output,
            errors,
        },
    ))
}
