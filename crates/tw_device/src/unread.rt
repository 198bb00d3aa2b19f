//! Bytes that were read and are not yet taken.

ghost use Rattle.std.specs.Prelude.{◌≡◌, ◌≤◌, ◌+◌, ◌++◌, ℕ, List, [], length, drop, take, false, IfSome, IfOk, OnErr};
ghost use Rattle.std.specs.Io.KnownBytes.{Consumes, IsAtEnd, Keeps};
ghost use Rattle.tw_ansi.specs.KeyBytes.{token_at};
ghost use Rattle.tw_ansi.specs.Resuming.{Fits};
ghost use Rattle.tw_device.specs.Typed.{is_lone_escape};
ghost use Rattle.tw_device.specs.Unread.{unread_in};

use std::alloc::Global;
use std::io::Read;
use std::marker::Model;
use tw_ansi::{Progress, Scanned, scan_on};
use tw_terminal::TerminalFault;

/// How many bytes are asked for at once.
pub(crate) const PIECE: usize = 16_384;

const ESC: u8 = 0x1b;

/// Bytes that were read and are not yet taken. Contracts see their list.
#[derive(Drop)]
pub(crate) struct Unread {
    /// The bytes, and room behind them for more.
    buffer: Vec<u8>,
    /// The number of bytes of the buffer that are taken.
    taken: usize,
    /// The number of bytes of the buffer that were read.
    filled: usize,
    /// How far those that are not taken were scanned for a token.
    progress: Progress,
}

impl Model for Unread {
    ghost Value = { List ℕ };

    ghost view = { λ it. unread_in it.taken it.filled it.buffer.items };

    ghost invariant = { λ it. (it.taken ≤ it.filled) × (it.filled ≤ length it.buffer.items)
        × Fits it.progress (unread_in it.taken it.filled it.buffer.items) };
}

impl Unread {
    /// Creates a buffer without bytes.
    pub(crate) fn new(alloc: Global) -> Unread
        ensures { result ≡ [] }
    {
        Unread {
            buffer: Vec::new(alloc),
            taken: 0,
            filled: 0,
            progress: Progress::Start,
        }
    }

    /// Returns the bytes.
    pub(crate) fn bytes(&self) -> &[u8]
        ensures { result.now ≡ self.now }
    {
        &self.buffer.as_slice()[self.taken..self.filled]
    }

    /// Returns true if they are an ESC alone.
    pub(crate) fn is_lone_escape(&self) -> bool
        ensures { result ≡ is_lone_escape self.now }
    {
        match self.bytes() {
            [] => false,
            [byte] => *byte == ESC,
            [_, _, ..] => false,
        }
    }

    /// Returns the token at the front, or `None` if more bytes are wanted. What was scanned is not scanned again.
    pub(crate) fn scan(&mut self, is_last: bool) -> Option<Scanned>
        ensures token { result ≡ token_at is_last self.old }
        ensures within { IfSome result (λ s. s.used ≤ length self.old) }
        ensures kept { self.new ≡ self.old }
    {
        match scan_on(self.bytes(), self.progress, is_last) {
            Ok(found) => Some(found),
            Err(progress) => {
                self.progress = progress;
                None
            }
        }
    }

    /// Returns the token at the front, if it does not depend on bytes that are not read yet.
    pub(crate) fn front(&self) -> Option<Scanned>
        ensures { result ≡ token_at false self.now }
    {
        scan_on(self.bytes(), self.progress, false).ok()
    }

    /// Takes bytes at the front.
    pub(crate) fn take(&mut self, count: usize)
        requires { count ≤ length self.old }
        ensures { self.new ≡ drop count self.old }
    {
        self.taken += count;
        self.progress = Progress::Start;
    }

    /// Reads what there is, and waits if there is nothing. Returns the number of bytes that came, or 0 at the end. Room
    /// for the bytes is found before the reader is asked, so that none is lost for want of memory.
    pub(crate) fn read_from<R: Read>(&mut self, reader: &mut R) -> Result<usize, TerminalFault>
        ensures ok { IfOk result (λ count. (more : List ℕ) × (self.new ≡ self.old ++ more)
            × (length more ≡ count)
            × Consumes (R.remaining reader.old) (R.remaining reader.new) more) }
        ensures end { IfOk result (λ count. count ≡ 0 → IsAtEnd (R.remaining reader.new)) }
        ensures err { OnErr result (self.new ≡ self.old) }
        ensures kept { OnErr result (Keeps (R.remaining reader.old) (R.remaining reader.new)) }
    {
        self.filled = close_up(&mut self.buffer, self.taken, self.filled);
        self.taken = 0;
        let count = read_more(reader, &mut self.buffer, self.filled)?;
        self.filled += count;
        Ok(count)
    }
}

/// Moves the bytes of a buffer that are not taken to its front, and returns their number.
fn close_up(buffer: &mut Vec<u8>, taken: usize, filled: usize) -> usize
    requires taken { taken ≤ filled }
    requires filled { filled ≤ length buffer.old.items }
    ensures within { result ≤ length buffer.new.items }
    ensures same { take result buffer.new.items ≡ unread_in taken filled buffer.old.items }
{
    if taken == filled {
        return 0;
    }
    buffer.drain(..taken);
    filled - taken
}

/// Reads what there is behind the first bytes of a buffer, and returns the number of bytes that came. The buffer gets
/// room for a piece before the reader is asked: mostly it has it, and nothing is written.
fn read_more<R: Read>(
    reader: &mut R,
    buffer: &mut Vec<u8>,
    held: usize,
) -> Result<usize, TerminalFault>
    requires { held ≤ length buffer.old.items }
    ensures ok { IfOk result (λ count. (more : List ℕ) × (held + count ≤ length buffer.new.items)
        × (take (held + count) buffer.new.items ≡ take held buffer.old.items ++ more)
        × (length more ≡ count) × Consumes (R.remaining reader.old) (R.remaining reader.new) more) }
    ensures end { IfOk result (λ count. count ≡ 0 → IsAtEnd (R.remaining reader.new)) }
    ensures err { OnErr result ((held ≤ length buffer.new.items)
        × (take held buffer.new.items ≡ take held buffer.old.items)) }
    ensures kept { OnErr result (Keeps (R.remaining reader.old) (R.remaining reader.new)) }
{
    buffer.resize(held.saturating_add(PIECE), 0)?;
    Ok(reader.read(&mut buffer.as_mut_slice()[held..])?)
}
