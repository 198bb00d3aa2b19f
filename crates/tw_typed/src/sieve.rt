//! What sifts typed bytes.

ghost use Rattle.std.specs.Prelude.{◌≡◌, ◌++◌, ◌∷◌, [], OnOk, OnErr, List};
ghost use Rattle.tw_typed.specs.Sieve.{SieveView, outside, key, pasted, held_on, at_paste_end, sift, interrupted, matched_by, is_number, number_goes_on, is_report};

use std::alloc::{AllocError, Global};
use std::marker::Model;

/// What every control sequence begins with.
pub(crate) const ESCAPE: u8 = 0x1b;

/// Ctrl-C.
pub(crate) const INTERRUPT: u8 = 0x03;

/// The mark before a pasted text.
const START_MARK: &[u8] = b"\x1b[200~";

/// The mark behind it.
const END_MARK: &[u8] = b"\x1b[201~";

/// How many bytes a mark has.
const MARK: usize = 6;

/// How many bytes a control sequence in a pasted text may have, to be looked at.
const LONGEST: usize = 32;

/// How long the shortest report of the cursor's place is.
const SHORTEST_REPORT: usize = 6;

/// Takes typed bytes one by one and hands out others: in a pasted text it holds back what may be the end mark or a
/// report of the cursor's place.
#[derive(Drop)]
pub(crate) struct Sieve {
    /// Whether a pasted text is being read.
    is_inside: bool,
    /// How many bytes of the next mark came last.
    matched: usize,
    /// The beginning of a control sequence in the pasted text.
    held: Vec<u8>,
    /// Whether a beginning of the end mark is right before that sequence.
    follows_mark: bool,
    /// The last report in the pasted text.
    report: Vec<u8>,
}

impl Model for Sieve {
    ghost Value = { SieveView };

    ghost view = { λ it. record {
      is_inside = it.is_inside;
      matched = it.matched;
      held = it.held.items;
      follows_mark = it.follows_mark;
      report = it.report.items;
    } };
}

/// Returns how many bytes of a mark came last, if `matched` did before this byte.
fn matched_by(mark: &[u8], matched: usize, byte: u8) -> usize
    ensures { result ≡ matched_by mark.now matched byte }
{
    if byte == ESCAPE {
        1
    } else if matched < mark.len() && mark[matched] == byte {
        matched + 1
    } else {
        0
    }
}

/// Returns true for a digit and for a semicolon.
fn is_number(byte: u8) -> bool
    ensures { result ≡ is_number byte }
{
    byte.is_ascii_digit() || byte == b';'
}

impl Sieve {
    /// Creates a sieve that has taken no byte.
    pub(crate) fn new(alloc: Global) -> Self
        ensures { result ≡ outside }
    {
        Sieve {
            is_inside: false,
            matched: 0,
            held: Vec::new(alloc),
            follows_mark: false,
            report: Vec::new(alloc),
        }
    }

    /// Returns true in a pasted text.
    pub(crate) fn is_inside(&self) -> bool
        ensures { result ≡ self.now.is_inside }
    {
        self.is_inside
    }

    /// Takes a byte, and hands out bytes behind those that are ready. If there is no memory, nothing changes.
    pub(crate) fn take(&mut self, byte: u8, ready: &mut Vec<u8>) -> Result<(), AllocError>
        ensures state { OnOk result (self.new ≡ (sift self.old byte).next) }
        ensures given { OnOk result (ready.new.items
            ≡ ready.old.items ++ (sift self.old byte).given) }
        ensures err { OnErr result ((self.new ≡ self.old) × (ready.new.items ≡ ready.old.items)) }
    {
        if !self.is_inside {
            self.take_key(byte, ready)
        } else if byte == ESCAPE {
            self.begin_sequence(ready)
        } else if self.held.is_empty() {
            ready.push(byte)?;
            Ok(())
        } else {
            self.go_on(byte, ready)
        }
    }

    /// Takes a byte outside of a pasted text.
    fn take_key(&mut self, byte: u8, ready: &mut Vec<u8>) -> Result<(), AllocError>
        ensures state { OnOk result (self.new ≡ (key self.old byte).next) }
        ensures given { OnOk result (ready.new.items ≡ ready.old.items ++ byte ∷ []) }
        ensures err { OnErr result ((self.new ≡ self.old) × (ready.new.items ≡ ready.old.items)) }
    {
        ready.push(byte)?;
        self.matched = matched_by(START_MARK, self.matched, byte);
        if self.matched == MARK {
            self.is_inside = true;
            self.matched = 0;
        }
        Ok(())
    }

    /// Takes an ESC of a pasted text: a sequence that is held back goes no further.
    fn begin_sequence(&mut self, ready: &mut Vec<u8>) -> Result<(), AllocError>
        ensures state { OnOk result (self.new ≡ (pasted self.old 27).next) }
        ensures given { OnOk result (ready.new.items ≡ ready.old.items ++ self.old.held) }
        ensures err { OnErr result ((self.new ≡ self.old) × (ready.new.items ≡ ready.old.items)) }
    {
        self.held.reserve(1)?;
        ready.append(&mut self.held)?;
        self.held.push(ESCAPE)?;
        self.follows_mark = self.matched > 0;
        self.matched = 1;
        Ok(())
    }

    /// Takes a byte behind a sequence that is held back.
    fn go_on(&mut self, byte: u8, ready: &mut Vec<u8>) -> Result<(), AllocError>
        ensures state { OnOk result (self.new ≡ (held_on self.old byte).next) }
        ensures given { OnOk result (ready.new.items
            ≡ ready.old.items ++ (held_on self.old byte).given) }
        ensures err { OnErr result ((self.new ≡ self.old) × (ready.new.items ≡ ready.old.items)) }
    {
        let matched = matched_by(END_MARK, self.matched, byte);
        if matched == MARK {
            self.end_paste(&[byte], &[], ready)
        } else if self.is_report(byte) {
            self.held.push(byte)?;
            std::mem::swap(&mut self.report, &mut self.held);
            self.held.clear();
            self.matched = 0;
            Ok(())
        } else if self.holds_on(byte) {
            self.held.push(byte)?;
            self.matched = matched;
            Ok(())
        } else {
            self.let_go(byte, ready)
        }
    }

    /// Returns true if this byte makes a report of what is held back.
    fn is_report(&self, byte: u8) -> bool
        ensures { result ≡ is_report self.now byte }
    {
        byte == b'R' && self.held.len() + 1 >= SHORTEST_REPORT && !self.follows_mark
    }

    /// Returns true if what is held back may go on with this byte.
    fn holds_on(&self, byte: u8) -> bool
        ensures { result ≡ number_goes_on self.now.held byte }
    {
        if self.held.len() == 1 {
            byte == b'['
        } else {
            is_number(byte) && self.held.len() + 1 < LONGEST
        }
    }

    /// Hands out what is held back, and this byte.
    fn let_go(&mut self, byte: u8, ready: &mut Vec<u8>) -> Result<(), AllocError>
        ensures state { OnOk result (self.new ≡ record self.old { held = []; matched = 0 }) }
        ensures given { OnOk result (ready.new.items
            ≡ ready.old.items ++ self.old.held ++ byte ∷ []) }
        ensures err { OnErr result ((self.new ≡ self.old) × (ready.new.items ≡ ready.old.items)) }
    {
        ready.reserve(self.held.len() + 1)?;
        ready.append(&mut self.held)?;
        ready.push(byte)?;
        self.matched = 0;
        Ok(())
    }

    /// Ends the pasted text with `mark`: behind it come the report and `key`.
    fn end_paste(&mut self, mark: &[u8], key: &[u8], ready: &mut Vec<u8>) -> Result<(), AllocError>
        ensures state { OnOk result (self.new ≡ outside) }
        ensures given { OnOk result (ready.new.items
            ≡ ready.old.items ++ (at_paste_end self.old mark.now).given ++ key.now) }
        ensures err { OnErr result ((self.new ≡ self.old) × (ready.new.items ≡ ready.old.items)) }
    {
        let more = self.held.len() + mark.len();
        let room = more.saturating_add(self.report.len() + key.len());
        ready.reserve(room)?;
        ready.append(&mut self.held)?;
        ready.extend_from_slice(mark)?;
        ready.append(&mut self.report)?;
        ready.extend_from_slice(key)?;
        self.is_inside = false;
        self.matched = 0;
        self.follows_mark = false;
        Ok(())
    }

    /// Ends the pasted text with a mark of its own, and hands out a Ctrl-C behind it. If there is no memory, nothing
    /// changes.
    pub(crate) fn interrupt(&mut self, ready: &mut Vec<u8>) -> Result<(), AllocError>
        ensures state { OnOk result (self.new ≡ (interrupted self.old).next) }
        ensures given { OnOk result (ready.new.items
            ≡ ready.old.items ++ (interrupted self.old).given) }
        ensures err { OnErr result ((self.new ≡ self.old) × (ready.new.items ≡ ready.old.items)) }
    {
        self.end_paste(END_MARK, &[INTERRUPT], ready)
    }

    /// Hands out what is held back. If there is no memory, nothing changes.
    pub(crate) fn finish(&mut self, ready: &mut Vec<u8>) -> Result<(), AllocError>
        ensures state { OnOk result (self.new ≡ record self.old { held = []; matched = 0 }) }
        ensures given { OnOk result (ready.new.items ≡ ready.old.items ++ self.old.held) }
        ensures err { OnErr result ((self.new ≡ self.old) × (ready.new.items ≡ ready.old.items)) }
    {
        ready.append(&mut self.held)?;
        self.matched = 0;
        Ok(())
    }
}
