//! The line buffer.

ghost use Rattle.std.specs.Prelude.{◌≡◌, ◌+◌, ◌*◌, ◌^◌, ◌<◌, ◌≤◌, [], encode_utf8, length, OnOk, OnErr, IfOk, IsOk, IsErr};
ghost use Rattle.std.specs.Str.{chars, IsCharBoundary};

use crate::clusters::{cluster_after, cluster_from};
use crate::movements::{Movement, RepeatCount, destination};
use crate::text::Text;
use std::alloc::{AllocError, Global};
use std::marker::Model;

/// A line of text with a cursor: a byte offset that is always a boundary, where a character starts
/// or the line ends.
#[derive(Debug, Drop)]
pub struct LineEditBuffer {
    line: Text,
    cursor: usize,
}

impl Model for LineEditBuffer {
    ghost use Rattle.std.specs.Str.{IsCharBoundary};
    ghost use Rattle.tw_line.specs.Cut.{Cut, cut_at};
    ghost use Rattle.tw_line.specs.Text.{bytes_of};

    ghost Value = { Cut };

    ghost view = { λ b. cut_at (bytes_of b.line) b.cursor };

    ghost invariant = { λ b. IsCharBoundary (bytes_of b.line) b.cursor };
}

impl LineEditBuffer {
    ghost use Rattle.tw_line.specs.Cut.{cut_at, empty_cut, IsCut};
    ghost use Rattle.tw_line.specs.Edits.{with_char, with_text, after_kill};
    ghost use Rattle.tw_line.specs.Extremes.{iterate};
    ghost use Rattle.tw_line.specs.Indices.{index_of};
    ghost use Rattle.tw_line.specs.Movements.{after_move};
    ghost use Rattle.tw_line.specs.Starts.{binary_digits};

    /// Creates the empty line. Takes no memory.
    pub fn empty(alloc: Global) -> Self
        ensures { result ≡ empty_cut }
    {
        LineEditBuffer {
            line: Text::new(alloc),
            cursor: 0,
        }
    }

    /// Creates a line with its cursor at the byte offset `cursor`, a boundary of the line. The empty line takes no
    /// memory.
    pub fn new(alloc: Global, line: &str, cursor: usize) -> Result<Self, AllocError>
        requires { IsCharBoundary line.now cursor }
        ensures ok { IfOk result (λ b. b ≡ cut_at line.now cursor) }
        ensures empty { line.now ≡ [] → IsOk result }
    {
        let line = Text::from_str(alloc, line)?;
        Ok(LineEditBuffer { line, cursor })
    }

    /// Returns the same line with the same cursor.
    pub fn try_clone(&self, alloc: Global) -> Result<Self, AllocError>
        ensures equal { IfOk result (λ copy. copy ≡ self.now) }
        ensures empty { self.now.line ≡ [] → IsOk result }
    {
        let line = self.line.try_clone(alloc)?;
        Ok(LineEditBuffer {
            line,
            cursor: self.cursor,
        })
    }

    /// Replaces the line, and sets the cursor to the byte offset `cursor`, a boundary of the new
    /// line. If it is refused, the buffer is as it was.
    pub fn set_line_and_cursor(&mut self, line: &str, cursor: usize) -> Result<(), AllocError>
        requires { IsCharBoundary line.now cursor }
        ensures ok { OnOk result (self.new ≡ cut_at line.now cursor) }
        ensures err { OnErr result (self.new ≡ self.old) }
        ensures empty { line.now ≡ [] → IsOk result }
    {
        self.line.set(line)?;
        self.cursor = cursor;
        Ok(())
    }

    /// Returns the line.
    pub fn get_line(&self) -> &str
        ensures { result.now ≡ self.now.line }
    {
        self.line.as_str()
    }

    /// Returns the byte offset of the cursor, which is a boundary of the line.
    pub fn get_cursor(&self) -> usize
        ensures value { result ≡ self.now.cursor }
        ensures boundary { IsCut self.now }
    {
        self.cursor
    }

    /// Returns the index of the character at the cursor, or the number of characters at the end, and how many
    /// comparisons of offsets found it.
    pub fn find_cursor(&self) -> (usize, u32)
        ensures index { result.0 ≡ index_of self.now.line self.now.cursor }
        ensures some { 0 < length (chars self.now.line) → 0 < result.1 }
        ensures few { result.1 ≤ binary_digits (length (chars self.now.line)) }
    {
        self.line.find_index(self.cursor)
    }

    /// Clears the line, and keeps its memory.
    pub fn clear(&mut self)
        ensures { self.new ≡ empty_cut }
    {
        self.line.clear();
        self.cursor = 0;
    }

    /// Inserts the character at the cursor, which goes to the next cluster boundary of the new
    /// line. If it is refused, the buffer is as it was.
    pub fn insert_char(&mut self, c: char) -> Result<(), AllocError>
        ensures ok { OnOk result (self.new ≡ with_char c self.old) }
        ensures err { OnErr result (self.new ≡ self.old) }
    {
        self.line.insert_char(self.cursor, c)?;
        let end = cluster_after(self.line.as_str(), self.cursor);
        self.cursor = end;
        Ok(())
    }

    /// Inserts the text at the cursor, which goes after it and so may stand inside a cluster.
    /// If it is refused, the buffer is as it was.
    pub fn insert_text(&mut self, text: &str) -> Result<(), AllocError>
        ensures ok { OnOk result (self.new ≡ with_text text.now self.old) }
        ensures err { OnErr result (self.new ≡ self.old) }
        ensures empty { text.now ≡ [] → IsOk result }
    {
        self.line.insert_text(self.cursor, text)?;
        self.cursor += text.len();
        Ok(())
    }

    /// Inserts the character `count` times. Fails before anything is inserted if the line would pass `isize::MAX`
    /// bytes. If it is refused, the buffer is as it was.
    pub fn insert_char_times(&mut self, count: RepeatCount, c: char) -> Result<(), AllocError>
        ensures ok { OnOk result (self.new ≡ iterate (with_char c) count self.old) }
        ensures err { OnErr result (self.new ≡ self.old) }
        ensures nothing { count ≡ 0 → IsOk result }
        ensures too_long { 2 ^ 63 ≤ length self.old.line + count * length (encode_utf8 c)
            → IsErr result }
    {
        let Some(more) = c.len_utf8().checked_mul(count) else {
            return Err(AllocError);
        };
        self.line.reserve(more, count)?;
        // A cluster boundary up to the cursor, so that no round looks at what stands before it.
        let mut from = 0;
        for _round in 0..count {
            let Ok(()) = self.line.insert_char(self.cursor, c) else {
                unreachable!()
            };
            let (begins, next) = cluster_from(self.line.as_str(), from, self.cursor);
            if begins {
                from = self.cursor;
            }
            self.cursor = next;
        }
        Ok(())
    }

    /// Inserts the text `count` times. Fails before anything is inserted if the line would pass `isize::MAX` bytes. If
    /// it is refused, the buffer is as it was.
    pub fn insert_text_times(&mut self, count: RepeatCount, text: &str) -> Result<(), AllocError>
        ensures ok { OnOk result (self.new ≡ iterate (with_text text.now) count self.old) }
        ensures err { OnErr result (self.new ≡ self.old) }
        ensures none { count ≡ 0 → IsOk result }
        ensures empty { text.now ≡ [] → IsOk result × (self.new ≡ self.old) }
        ensures too_long { 2 ^ 63 ≤ length self.old.line + count * length text.now → IsErr result }
    {
        let alloc = self.line.allocator();
        if count == 0 || text.is_empty() {
            return Ok(());
        }
        let repeated = text.repeat(alloc, count)?;
        self.line.insert_text(self.cursor, &repeated)?;
        self.cursor += repeated.len();
        Ok(())
    }

    /// Moves the cursor. It returns for every count.
    pub fn exec_movement(&mut self, movement: Movement)
        ensures { self.new ≡ after_move movement self.old }
    {
        self.cursor = destination(&self.line, self.cursor, movement);
    }

    /// Takes away what lies between the cursor and where `kill` leads. The cursor goes to the
    /// greatest boundary of what is left that is not above where `movement` leads; both movements
    /// are those in the old line.
    pub fn kill_text(&mut self, kill: Movement, movement: Movement)
        ensures { self.new ≡ after_kill kill movement self.old }
    {
        let end = destination(&self.line, self.cursor, kill);
        let target = destination(&self.line, self.cursor, movement);
        let lower = self.cursor.min(end);
        let upper = self.cursor.max(end);
        self.line.remove(lower, upper);
        let limit = target.min(self.line.len());
        let boundary = self.line.boundary_below(limit);
        self.cursor = boundary;
    }
}
