//! The two ends of a terminal: what is read from it and what is written to it.

use crate::random_numbers::RandomNumbers;
use std::alloc::{AllocError, Global};
use std::io;
use std::io::{Read, Write};

/// The most bytes of a piece.
const MOST: u64 = 7;

/// A reader that gives bytes in pieces, cut anywhere.
#[derive(Drop)]
pub struct Pieces<'a> {
    bytes: &'a [u8],
    cuts: RandomNumbers,
}

impl<'a> Pieces<'a> {
    /// Creates a reader of these bytes, in pieces of lengths that the numbers give.
    pub fn new(bytes: &'a [u8], cuts: RandomNumbers) -> Self {
        Pieces { bytes, cuts }
    }
}

impl Read for Pieces<'_> {
    fn read(&mut self, buf: &mut [u8]) -> io::Result<usize> {
        let len = self.cuts.below(MOST).saturating_add(1) as usize;
        let len = len.min(buf.len()).min(self.bytes.len());
        let (piece, rest) = self.bytes.split_at(len);
        buf[..len].copy_from_slice(piece);
        self.bytes = rest;
        Ok(len)
    }
}

/// What was written, write by write.
#[derive(Drop)]
pub struct Writes {
    bytes: Vec<u8>,
    ends: Vec<usize>,
}

impl Writes {
    /// Creates a writer that took nothing yet.
    pub fn new(alloc: Global) -> Self {
        Writes {
            bytes: Vec::new(alloc),
            ends: Vec::new(alloc),
        }
    }

    /// Keeps one more write.
    fn keep(&mut self, bytes: &[u8]) -> Result<(), AllocError> {
        self.bytes.extend_from_slice(bytes)?;
        self.ends.push(self.bytes.len())?;
        Ok(())
    }

    /// Returns how many writes there were.
    pub fn len(&self) -> usize {
        self.ends.len()
    }

    /// Returns the bytes of a write, counted from 0, or none after the last one.
    pub fn bytes_of(&self, index: usize) -> &[u8] {
        self.get(index).unwrap_or(b"")
    }

    fn get(&self, index: usize) -> Option<&[u8]> {
        let end = *self.ends.get(index)?;
        let start = match index.checked_sub(1) {
            Some(before) => *self.ends.get(before)?,
            None => 0,
        };
        self.bytes.as_slice().get(start..end)
    }
}

/// A writer that keeps what is written.
#[derive(Drop)]
pub struct Recorder<'a>(pub &'a mut Writes);

impl Write for Recorder<'_> {
    fn write(&mut self, buf: &[u8]) -> io::Result<usize> {
        self.0.keep(buf)?;
        Ok(buf.len())
    }

    fn write_all(&mut self, buf: &[u8]) -> io::Result<()> {
        self.write(buf)?;
        Ok(())
    }

    fn flush(&mut self) -> io::Result<()> {
        Ok(())
    }
}
