//! The reader of typed bytes.

ghost use Rattle.std.specs.Prelude.{◌≡◌, ◌≢◌, ◌<◌, ◌≤◌, ◌+◌, ◌++◌, [], take, length, true, IfOk, OnOk, OnErr, option_map};
ghost use Rattle.std.specs.Io.KnownBytes.{Consumes, Keeps, IsAtEnd};
ghost use Rattle.tw_typed.specs.Sieve.{outside, sifted};
ghost use Rattle.tw_typed.specs.Typed.{by_end, by_pause, heard_by, is_alone, left_in, resumed, heard_of, untaken};
ghost use Rattle.tw_typed.specs.declared.typed.Lull.TheVariants.{Busy, Interrupted};
ghost use Rattle.tw_typed.specs.declared.typed.Found.TheVariants.{End};

use crate::sieve::{ESCAPE, INTERRUPT, Sieve};
use std::alloc::Global;
use std::io::{self, ErrorKind, Read};
use std::time::{Clock, Instant};

/// A terminal waits longer than these milliseconds before it answers that nothing was typed. At the end of the input
/// the answer comes at once.
const SHORTEST_PAUSE: u128 = 50;

/// The most bytes that are asked for at once.
pub const PIECE: usize = 1024;

/// The most bytes that are held back to be handed out together.
const LONGEST_RUN: usize = 16_384;

/// The number of characters in a row that have to come at once before more are gathered.
const BURST: usize = 8;

/// Within these milliseconds a read came at once: nobody had to type.
const AT_ONCE: u128 = 2;

/// What a reader answers.
#[derive(Clone, Copy)]
enum Found {
    /// Bytes.
    Bytes,
    /// That nothing was typed for a while.
    Pause,
    /// That there is no more.
    End,
}

/// What came last.
#[derive(Clone, Copy)]
enum Lull {
    /// Bytes, or nothing yet.
    Busy,
    /// A pause.
    Paused,
    /// A Ctrl-C by itself, behind a pause in a pasted text: it ends the text if a pause is next, and else is part of
    /// it.
    Interrupted,
}

/// The reader of a terminal in raw mode. It asks for one byte at a time, so that what is typed behind the last line is
/// left to others, or for all that there is, so that it is known what is at hand.
///
/// An ESC is handed out with the byte behind it, so that the key Escape, which has none, differs from other keys: it
/// comes before a pause. A terminal that was asked for its size may answer within a pasted text, if that is typed
/// slowly. The answer is no part of the text: the last one is handed out behind it. An answer behind a beginning of the
/// mark that ends the text stays in it, since what is around it would be that mark. A pasted text whose end never comes
/// is ended by a Ctrl-C between two pauses.
///
/// If characters come at once, many in a row, as a text does that is pasted without marks, they are handed out
/// together: at the first control character, or at a pause. No byte behind that one is read before. Only a terminal has
/// pauses: the bytes of a file are not gathered.
///
/// A call that fails loses no byte: what was read is kept for the next call. It fails with `ErrorKind::OutOfMemory` if
/// there is no memory.
///
/// What it has left to hand out is what its reader has left, `sifted`, where that is known: `remaining`, as of every
/// `Read`. When it hands bytes out makes no difference to them.
#[derive(Drop)]
pub struct Typed<R, C> {
    reader: R,
    clock: C,
    /// The most bytes to ask for at once.
    most: usize,
    /// Whether characters that come at once are gathered.
    gathers: bool,
    /// The bytes of the last read, of which the first `taken` are taken.
    piece: Vec<u8>,
    taken: usize,
    lull: Lull,
    /// The number of characters that came at once, one behind the other.
    streak: usize,
    sieve: Sieve,
    /// The bytes that are to be handed out.
    ready: Vec<u8>,
}

/// Returns true if no byte is a control character.
fn are_text(bytes: &[u8]) -> bool {
    bytes.iter().all(|byte| *byte >= b' ' && *byte != 0x7f)
}

/// Returns the number of characters that begin in a text.
fn characters_in(bytes: &[u8]) -> usize {
    bytes.iter().filter(|byte| **byte & 0xc0 != 0x80).count()
}

/// Reads into a piece, which has at most `most` bytes then, and at most `PIECE`.
fn read_into<R: Read>(reader: &mut R, piece: &mut Vec<u8>, most: usize) -> io::Result<()>
    ensures ok { OnOk result (Consumes (R.remaining reader.old) (R.remaining reader.new)
        piece.new.items) }
    ensures end { OnOk result (piece.new.items ≡ [] → IsAtEnd (R.remaining reader.new)) }
    ensures err { OnErr result (piece.new.items ≡ []) }
    ensures kept { OnErr result (Keeps (R.remaining reader.old) (R.remaining reader.new)) }
{
    piece.clear();
    piece.resize(most.clamp(1, PIECE), 0)?;
    match reader.read(piece.as_mut_slice()) {
        Ok(count) => {
            piece.truncate(count);
            Ok(())
        }
        Err(error) => {
            piece.clear();
            Err(error)
        }
    }
}

/// Moves bytes from the front of `ready` into a buffer, as many as it takes, and returns their number.
fn hand_out(ready: &mut Vec<u8>, buf: &mut [u8]) -> usize
    ensures moved { ready.old.items ≡ take result buf.new ++ ready.new.items }
    ensures bound { result ≤ length buf.new }
    ensures none { result ≡ 0 → 0 < length buf.new → ready.old.items ≡ [] }
    ensures empty { ready.old.items ≡ [] → ready.new.items ≡ [] }
{
    let count = ready.len().min(buf.len());
    buf[..count].copy_from_slice(&ready.as_slice()[..count]);
    ready.drain(..count);
    count
}

impl<R: Read, C: Clock> Typed<R, C> {
    /// Creates a reader over another one, which is asked for at most `most` bytes at once, at least 1 and at most
    /// `PIECE`. If `gathers` is true, the other one is a terminal, and characters that come at once are gathered.
    pub fn new(alloc: Global, reader: R, clock: C, most: usize, gathers: bool) -> Self
        ensures remaining { ⟦<Typed<R, C> as Read>⟧.remaining result
            ≡ option_map (sifted outside) (R.remaining reader) }
        ensures choices { (result.most ≡ most) × (result.gathers ≡ gathers) }
    {
        Typed {
            reader,
            clock,
            most,
            gathers,
            piece: Vec::new(alloc),
            taken: 0,
            lull: Lull::Busy,
            streak: 0,
            sieve: Sieve::new(alloc),
            ready: Vec::new(alloc),
        }
    }

    /// Takes the next byte of the piece.
    fn take_next(&mut self) -> io::Result<()>
        requires busy { self.old.lull ≡ Busy }
        requires some { self.old.taken < length self.old.piece.items }
        ensures heard { heard_by self.new ≡ heard_by self.old }
        ensures taken { OnOk result (self.new.taken ≡ self.old.taken + 1) }
        ensures kept { self.new ≡ record self.old {
          taken = self.new.taken;
          sieve = self.new.sieve;
          ready = self.new.ready;
        } }
    {
        self.sieve.take(self.piece[self.taken], &mut self.ready)?;
        self.taken += 1;
        Ok(())
    }

    /// Takes a Ctrl-C that came by itself as a part of the pasted text.
    fn take_interrupt(&mut self) -> io::Result<()>
        ensures ok { OnOk result (heard_of self.new ≡ resumed (heard_of self.old)) }
        ensures err { OnErr result (heard_of self.new ≡ heard_of self.old) }
        ensures kept { self.new ≡ record self.old {
          lull = self.new.lull;
          sieve = self.new.sieve;
          ready = self.new.ready;
        } }
    {
        if matches!(self.lull, Lull::Interrupted) {
            self.sieve.take(INTERRUPT, &mut self.ready)?;
            self.lull = Lull::Busy;
        }
        Ok(())
    }

    /// Ends the pasted text if a Ctrl-C came by itself before this pause.
    fn pause(&mut self) -> io::Result<()>
        ensures ok { OnOk result (heard_of self.new ≡ by_pause (heard_of self.old)) }
        ensures err { OnErr result (heard_of self.new ≡ heard_of self.old) }
        ensures kept { self.new ≡ record self.old {
          lull = self.new.lull;
          sieve = self.new.sieve;
          ready = self.new.ready;
        } }
    {
        if matches!(self.lull, Lull::Interrupted) {
            self.sieve.interrupt(&mut self.ready)?;
        }
        self.lull = Lull::Paused;
        Ok(())
    }

    /// Returns true if what is not taken is a Ctrl-C by itself, behind a pause in a pasted text.
    fn is_interrupted(&self) -> bool
        requires { self.now.taken ≤ length self.now.piece.items }
        ensures { result ≡ is_alone (heard_of self.now) (untaken self.now) }
    {
        if !matches!(self.lull, Lull::Paused) || !self.sieve.is_inside() {
            return false;
        }
        match &self.piece.as_slice()[self.taken..] {
            [byte] => *byte == INTERRUPT,
            _ => false,
        }
    }

    /// Takes the bytes of the piece.
    fn take_piece(&mut self) -> io::Result<()>
        requires { self.old.taken < length self.old.piece.items }
        ensures heard { heard_by self.new ≡ heard_by self.old }
        ensures taken { OnOk result (untaken self.new ≡ []) }
        ensures reader { self.new.reader ≡ self.old.reader }
    {
        if self.is_interrupted() {
            self.lull = Lull::Interrupted;
            self.taken = self.piece.len();
            return Ok(());
        }
        self.take_interrupt()?;
        self.lull = Lull::Busy;
        self.take_all()
    }

    /// Takes the bytes of the piece, each for itself.
    fn take_all(&mut self) -> io::Result<()>
        requires { self.old.lull ≡ Busy }
        ensures heard { heard_by self.new ≡ heard_by self.old }
        ensures taken { OnOk result (untaken self.new ≡ []) }
        ensures reader { self.new.reader ≡ self.old.reader }
    {
        while self.taken < self.piece.len() {
            self.take_next()?;
        }
        Ok(())
    }

    /// Counts the characters of a read that took this long into the streak, or ends it.
    fn count_streak(&mut self, passed: u128)
        ensures { self.new ≡ record self.old { streak = self.new.streak } }
    {
        let piece = self.piece.as_slice();
        self.streak = if !self.sieve.is_inside() && are_text(piece) && passed < AT_ONCE {
            self.streak.saturating_add(characters_in(piece))
        } else {
            0
        };
    }

    /// Reads into the piece. Returns how long it took, in milliseconds.
    #[tactic(auto, using(crate::proofs::TypedLemmas::read_keeps))]
    fn read_piece(&mut self) -> io::Result<u128>
        requires { untaken self.old ≡ [] }
        ensures kept { Keeps (left_in R.remaining self.old) (left_in R.remaining self.new) }
        ensures same { heard_of self.new ≡ heard_of self.old }
        ensures end { OnOk result (self.new.piece.items ≡ []
            → IsAtEnd (R.remaining self.new.reader)) }
        ensures taken { OnOk result (self.new.taken ≡ 0) }
    {
        let begun = Instant::now(&self.clock)?;
        self.taken = 0;
        read_into(&mut self.reader, &mut self.piece, self.most)?;
        Ok(begun.elapsed(&self.clock)?.as_millis())
    }

    /// Reads what there is, and takes it. What was read before and is not taken comes first.
    fn find(&mut self) -> io::Result<Found>
        ensures kept { Keeps (left_in R.remaining self.old) (left_in R.remaining self.new) }
        ensures end { IfOk result (λ found. found ≡ End → (untaken self.new ≡ [])
            × IsAtEnd (R.remaining self.new.reader) × (self.new.lull ≢ Interrupted)) }
    {
        if self.taken < self.piece.len() {
            self.take_piece()?;
            return Ok(Found::Bytes);
        }
        let passed = self.read_piece()?;
        self.count_streak(passed);
        if !self.piece.is_empty() {
            self.take_piece()?;
            return Ok(Found::Bytes);
        }
        if passed < SHORTEST_PAUSE {
            self.take_interrupt()?;
            return Ok(Found::End);
        }
        self.pause()?;
        Ok(Found::Pause)
    }

    /// Returns true if the last byte may be followed by others that belong to it: an ESC by its next one, and a
    /// character by those that come at once, many in a row.
    fn may_go_on(&self, last: u8) -> bool {
        last == ESCAPE || (self.gathers && self.streak >= BURST)
    }

    /// Returns true if bytes are to be handed out at once.
    fn is_ready(&self) -> bool
        ensures { result ≡ true → self.now.ready.items ≢ [] }
    {
        match self.ready.as_slice().last() {
            Some(last) => {
                self.sieve.is_inside() || self.ready.len() >= LONGEST_RUN || !self.may_go_on(*last)
            }
            None => false,
        }
    }

    /// Hands out what is held back, at the end.
    fn finish(&mut self) -> io::Result<()>
        requires empty { untaken self.old ≡ [] }
        requires end { IsAtEnd (R.remaining self.old.reader) }
        requires lull { self.old.lull ≢ Interrupted }
        ensures kept { Keeps (left_in R.remaining self.old) (left_in R.remaining self.new) }
        ensures end { OnOk result (self.new.ready.items ≡ []
            → IsAtEnd (left_in R.remaining self.new)) }
        ensures ok { OnOk result (heard_of self.new ≡ by_end (heard_of self.old)) }
        ensures err { OnErr result (heard_by self.new ≡ heard_by self.old) }
    {
        self.sieve.finish(&mut self.ready)?;
        Ok(())
    }

    /// Reads up to where bytes are to be handed out. At the end that is what was held back, or nothing.
    fn fill(&mut self) -> io::Result<()>
        ensures kept { Keeps (left_in R.remaining self.old) (left_in R.remaining self.new) }
        ensures end { OnOk result (self.new.ready.items ≡ []
            → IsAtEnd (left_in R.remaining self.new)) }
    {
        for _ in 0..u64::MAX {
            if self.is_ready() {
                return Ok(());
            }
            match self.find()? {
                Found::Bytes => {}
                Found::Pause => {
                    if !self.ready.is_empty() {
                        return Ok(());
                    }
                }
                Found::End => return self.finish(),
            }
        }
        Err(io::Error::from(ErrorKind::Other))
    }
}

impl<R: Read, C: Clock> Read for Typed<R, C> {
    ghost remaining = { left_in R.remaining };

    fn read(&mut self, buf: &mut [u8]) -> io::Result<usize> {
        self.fill()?;
        Ok(hand_out(&mut self.ready, buf))
    }
}
