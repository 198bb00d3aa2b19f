//! The representation of a text: its bytes, and the byte offsets at which its characters start.

ghost use Rattle.std.specs.Prelude.{◌≡◌, ◌+◌, ◌^◌, ◌<◌, ◌≤◌, [], encode_utf8, length, slice_index, OnOk, OnErr, IfOk, IsOk};
ghost use Rattle.std.specs.List.{insert_slice, remove_range};
ghost use Rattle.std.specs.Str.{chars, IsCharBoundary};
ghost use Rattle.std.specs.String.{string_bytes};
ghost use Rattle.unicode_segmentation.specs.Steps.{IsCharAt};
ghost use Rattle.tw_line.specs.Boundaries.{boundary_below};
ghost use Rattle.tw_line.specs.Indices.{offset_of};
ghost use Rattle.tw_line.specs.Starts.{starts_of, binary_digits};

use crate::starts::{count_below, insert_starts, remove_starts};
use std::alloc::{AllocError, Global};

/// A text that can be edited in place. A boundary of it is a byte offset at which a character
/// starts, or the length.
#[derive(Debug, Drop)]
pub struct Text {
    line: String,
    starts: Vec<usize>,
    ghost listed: { starts.items ≡ starts_of (string_bytes line) },
}

impl Text {
    ghost use Rattle.tw_line.specs.Text.{bytes_of, chars_of, index_in, room_of, places_of, LacksRoom};

    /// Creates the empty text. Takes no memory.
    pub fn new(alloc: Global) -> Self
        ensures { bytes_of result ≡ [] }
    {
        Text {
            line: String::new(alloc),
            starts: Vec::new(alloc),
        }
    }

    /// Returns a copy of the text.
    pub fn from_str(alloc: Global, text: &str) -> Result<Self, AllocError>
        ensures ok { IfOk result (λ t. bytes_of t ≡ text.now) }
        ensures empty { text.now ≡ [] → IsOk result }
    {
        let mut made = Text::new(alloc);
        made.insert_text(0, text)?;
        Ok(made)
    }

    /// Returns the same text, with room of its own.
    pub fn try_clone(&self, alloc: Global) -> Result<Self, AllocError>
        ensures ok { IfOk result (λ t. bytes_of t ≡ bytes_of self.now) }
        ensures empty { bytes_of self.now ≡ [] → IsOk result }
    {
        if self.line.is_empty() {
            return Ok(Text::new(alloc));
        }
        let line = String::from_str(alloc, self.line.as_str())?;
        let starts = Vec::from_slice(alloc, &self.starts)?;
        Ok(Text { line, starts })
    }

    /// Replaces the text.
    pub fn set(&mut self, text: &str) -> Result<(), AllocError>
        ensures ok { OnOk result (bytes_of self.new ≡ text.now) }
        ensures err { OnErr result (bytes_of self.new ≡ bytes_of self.old) }
        ensures empty { text.now ≡ [] → IsOk result }
    {
        *self = Text::from_str(self.allocator(), text)?;
        Ok(())
    }

    /// Returns the text as it is.
    pub fn as_str(&self) -> &str
        ensures { result.now ≡ bytes_of self.now }
    {
        self.line.as_str()
    }

    /// Returns the length in bytes.
    pub fn len(&self) -> usize
        ensures { result ≡ length (bytes_of self.now) }
    {
        self.line.len()
    }

    /// Returns how many characters the text has.
    pub fn count(&self) -> usize
        ensures { result ≡ length (chars_of self.now) }
    {
        self.starts.len()
    }

    /// Returns the allocator that keeps the text.
    pub fn allocator(&self) -> Global {
        *self.line.allocator()
    }

    /// Makes room for `bytes` bytes and `characters` characters more.
    pub fn reserve(&mut self, bytes: usize, characters: usize) -> Result<(), AllocError>
        ensures bytes { bytes_of self.new ≡ bytes_of self.old }
        ensures room { OnOk result (length (bytes_of self.new) + bytes ≤ room_of self.new) }
        ensures places { OnOk result (length (chars_of self.new) + characters
            ≤ places_of self.new) }
        ensures err { OnErr result (LacksRoom bytes characters self.old) }
        ensures limit { room_of self.new < 2 ^ 63 }
        ensures kept_room { room_of self.old ≤ room_of self.new }
        ensures kept_places { places_of self.old ≤ places_of self.new }
    {
        self.line.reserve(bytes)?;
        self.starts.reserve(characters)?;
        Ok(())
    }

    /// Inserts the character at the boundary `at`. It can be refused only where there is no room.
    pub fn insert_char(&mut self, at: usize, c: char) -> Result<(), AllocError>
        requires { IsCharBoundary (bytes_of self.old) at }
        ensures ok { OnOk result (bytes_of self.new
            ≡ insert_slice (bytes_of self.old) at (encode_utf8 c)) }
        ensures err { OnErr result (bytes_of self.new ≡ bytes_of self.old) }
        ensures room { room_of self.old ≤ room_of self.new }
        ensures places { places_of self.old ≤ places_of self.new }
        ensures full { OnErr result (LacksRoom (length (encode_utf8 c)) 1 self.old) }
        ensures count { OnOk result (length (chars_of self.new) ≡ length (chars_of self.old) + 1) }
    {
        self.insert_text(at, c.encode_utf8(&mut [0; 4]))
    }

    /// Inserts the text at the boundary `at`. It can be refused only where there is no room, and the empty text
    /// takes none.
    pub fn insert_text(&mut self, at: usize, text: &str) -> Result<(), AllocError>
        requires { IsCharBoundary (bytes_of self.old) at }
        ensures ok { OnOk result (bytes_of self.new
            ≡ insert_slice (bytes_of self.old) at text.now) }
        ensures err { OnErr result (bytes_of self.new ≡ bytes_of self.old) }
        ensures room { room_of self.old ≤ room_of self.new }
        ensures places { places_of self.old ≤ places_of self.new }
        ensures full { OnErr result (LacksRoom (length text.now)
            (length (chars text.now)) self.old) }
        ensures empty { text.now ≡ [] → IsOk result }
    {
        self.reserve(text.len(), text.chars().count())?;
        let index = self.index_of(at);
        let Ok(()) = self.line.insert_str(at, text) else {
            unreachable!()
        };
        insert_starts(&mut self.starts, index, at, text);
        Ok(())
    }

    /// Takes away what lies between two boundaries. It keeps the memory.
    pub fn remove(&mut self, start: usize, end: usize)
        requires order { start ≤ end }
        requires start_boundary { IsCharBoundary (bytes_of self.old) start }
        requires end_boundary { IsCharBoundary (bytes_of self.old) end }
        ensures { bytes_of self.new ≡ remove_range (bytes_of self.old) start end }
    {
        let first = self.index_of(start);
        let last = self.index_of(end);
        let Ok(()) = self.line.replace_range(start..end, "") else {
            unreachable!()
        };
        remove_starts(&mut self.starts, first, last, end - start);
    }

    /// Clears the text, and keeps its memory.
    pub fn clear(&mut self)
        ensures { bytes_of self.new ≡ [] }
    {
        self.line.clear();
        self.starts.clear();
    }

    /// Returns the character that starts at `start`, and the offset at which it ends.
    pub fn char_at(&self, start: usize) -> (char, usize)
        requires inside { start < length (bytes_of self.now) }
        requires boundary { IsCharBoundary (bytes_of self.now) start }
        ensures { IsCharAt (bytes_of self.now) start result.0 result.1 }
    {
        let line = self.line.as_str();
        let mut chars = line[start..].chars();
        let Some(c) = chars.next() else {
            unreachable!()
        };
        (c, line.len() - chars.as_str().len())
    }

    /// Returns the character at the index.
    pub fn character(&self, index: usize) -> char
        requires { index < length (chars_of self.now) }
        ensures { result ≡ slice_index (chars_of self.now) index }
    {
        let (c, _) = self.char_at(self.starts[index]);
        c
    }

    /// Returns how many characters stand before the boundary `at`, and how many comparisons found it.
    pub fn find_index(&self, at: usize) -> (usize, u32)
        requires { IsCharBoundary (bytes_of self.now) at }
        ensures index { result.0 ≡ index_in self.now at }
        ensures some { 0 < length (chars_of self.now) → 0 < result.1 }
        ensures few { result.1 ≤ binary_digits (length (chars_of self.now)) }
    {
        count_below(&self.starts, at)
    }

    /// Returns how many characters stand before the boundary `at`.
    pub fn index_of(&self, at: usize) -> usize
        requires { IsCharBoundary (bytes_of self.now) at }
        ensures index { result ≡ index_in self.now at }
        ensures within { result ≤ length (chars_of self.now) }
    {
        let (index, _) = self.find_index(at);
        index
    }

    /// Returns the offset at which the character of the index starts, or the length for the number of characters.
    pub fn offset_of(&self, index: usize) -> usize
        requires { index ≤ length (chars_of self.now) }
        ensures value { result ≡ offset_of (bytes_of self.now) index }
        ensures boundary { IsCharBoundary (bytes_of self.now) result }
        ensures index { index_in self.now result ≡ index }
    {
        if index < self.starts.len() {
            self.starts[index]
        } else {
            self.len()
        }
    }

    /// Returns the greatest boundary that is not above `limit`.
    pub fn boundary_below(&self, limit: usize) -> usize
        ensures value { result ≡ boundary_below (bytes_of self.now) limit }
        ensures boundary { IsCharBoundary (bytes_of self.now) result }
    {
        let len = self.len();
        if limit >= len {
            return len;
        }
        let (after, _) = count_below(&self.starts, limit + 1);
        self.starts[after - 1]
    }
}
