//! Sources of live events, and the reader of typed bytes.

ghost use Rattle.std.specs.Prelude.{◌≡◌, ◌≤◌, ◌==◌, ◌++◌, ◌∷◌, ℕ, [], List, length, drop, true, false, IfSome, IfOk, IfErr, OnOk, OnErr, MatchOption, ⊤};
ghost use Rattle.std.specs.Io.KnownBytes.{Consumes, IsAtEnd, Keeps};
ghost use Rattle.tw_input.specs.EventView.{event_view, EventView};
ghost use Rattle.tw_terminal.specs.declared.terminal.TerminalFault.TheVariants.{Memory};
ghost use Rattle.tw_device.specs.Keys.{held_by, is_at_end};
ghost use Rattle.tw_device.specs.Told.{token_events, events_in_option, answer_events};
ghost use Rattle.tw_device.specs.Typed.{piece, next_token, is_at_hand, IsPasted, TellsTyped, IsHeldUp};
ghost use Rattle.tw_device.specs.declared.keys.SourceState.TheVariants.{Going, AtEnd, Refused as HasRefused};
ghost use Rattle.tw_device.specs.declared.escape.Escape.TheVariants.{AtOnce};
ghost use Rattle.tw_device.specs.declared.pasted.Pasted.TheVariants.{OneRow};

use crate::escape::Escape;
use crate::event_log::EventLog;
use crate::pasted::{Pasted, pasted_text};
use crate::unread::{PIECE, Unread};
use std::alloc::Global;
use std::io::Read;
use tw_ansi::{Scanned, Token};
use tw_input::InputEvent;
use tw_terminal::TerminalFault;

/// What a source answered last.
#[derive(Debug, Clone, Copy, PartialEq, Eq)]
pub enum SourceState {
    /// An event, or nothing yet.
    Going,
    /// That it had no more events.
    AtEnd,
    /// A refusal.
    Refused(TerminalFault),
}

impl SourceState {
    /// Returns the state of a source that gave this answer.
    pub fn after(answer: &Result<Option<InputEvent>, TerminalFault>) -> Self
        ensures ok { IfOk answer.now (λ event. MatchOption event (result ≡ AtEnd)
            (λ _. result ≡ Going)) }
        ensures err { IfErr answer.now (λ fault. result ≡ HasRefused fault) }
    {
        match answer {
            Ok(Some(_)) => SourceState::Going,
            Ok(None) => SourceState::AtEnd,
            Err(fault) => SourceState::Refused(*fault),
        }
    }
}

/// A source of events, as its contracts see it: the events that it told so far, and what it answered last.
pub trait EventSource {
    ghost use Rattle.std.specs.Prelude.{Bool};
    ghost use Rattle.tw_device.specs.declared.keys.SourceState.{SourceState};

    ghost told: { Self → List EventView };

    ghost state: { Self → SourceState };

    // Whether the next call answers with what is at hand.
    ghost at_hand: { Self → Bool };

    // What a call did besides: from such a source to such a one, telling these events.
    ghost follows: { Self → Self → List EventView → Type 0 } = { λ _ _ _. ⊤ };

    /// Returns the next event, or `None` if there are no more. A refusal tells none.
    fn next_event(&mut self) -> Result<Option<InputEvent>, TerminalFault>
        ensures ok { IfOk result (λ event. MatchOption event
            ((told self.new ≡ told self.old) × (state self.new ≡ AtEnd))
            (λ event. told self.new ≡ told self.old ++ event_view event ∷ [])) }
        ensures going { IfOk result (λ event. IfSome event (λ _. state self.new ≡ Going)) }
        ensures told { OnErr result (told self.new ≡ told self.old) }
        ensures refused { IfErr result (λ fault. state self.new ≡ HasRefused fault) }
        ensures follows { follows self.old self.new (answer_events result) };

    /// Returns true if the next call answers with what is at hand, and false if it may wait or that is not known.
    fn has_at_hand(&self) -> bool
        ensures { result ≡ at_hand self.now };
}

/// A reader of what is typed.
#[derive(Drop)]
pub struct KeyReader<R> {
    alloc: Global,
    reader: R,
    escape: Escape,
    pasted: Pasted,
    unread: Unread,
    was_full: bool,
    state: SourceState,
    told: EventLog,
}

impl<R: Read> KeyReader<R> {
    /// Creates a reader with `Escape::AtOnce` and `Pasted::OneRow`.
    pub fn new(alloc: Global, reader: R) -> Self
        ensures told { ⟦<KeyReader<R> as EventSource>⟧.told result ≡ [] }
        ensures going { ⟦<KeyReader<R> as EventSource>⟧.state result ≡ Going }
        ensures held { held_by R.remaining result ≡ record {
          escape = AtOnce;
          pasted = OneRow;
          unread = [];
          was_full = false;
          left = R.remaining reader;
        } }
    {
        KeyReader {
            alloc,
            reader,
            escape: Escape::AtOnce,
            pasted: Pasted::OneRow,
            unread: Unread::new(alloc),
            was_full: false,
            state: SourceState::Going,
            told: EventLog::new(),
        }
    }

    /// Returns the reader with this choice for an ESC alone.
    pub fn with_escape(mut self, escape: Escape) -> Self
        ensures { result ≡ record self { escape = escape } }
    {
        self.escape = escape;
        self
    }

    /// Returns the reader with this choice for pasted texts.
    pub fn with_pasted(mut self, pasted: Pasted) -> Self
        ensures { result ≡ record self { pasted = pasted } }
    {
        self.set_pasted(pasted);
        self
    }

    /// Sets the choice for pasted texts.
    pub fn set_pasted(&mut self, pasted: Pasted)
        ensures { self.new ≡ record self.old { pasted = pasted } }
    {
        self.pasted = pasted;
    }

    /// Returns true if the last answer was that there are no more events.
    pub fn is_at_end(&self) -> bool
        ensures { result ≡ is_at_end self.now.state }
    {
        matches!(self.state, SourceState::AtEnd)
    }

    /// Returns the next event, or `None` at the end of what is typed.
    #[tactic(auto, using(crate::proofs::ReadLemmas::none_left))]
    fn find(&mut self) -> Result<Option<InputEvent>, TerminalFault>
        ensures told { self.new.told ≡ self.old.told }
        ensures tells { TellsTyped (held_by R.remaining self.old) (held_by R.remaining self.new)
            (answer_events result) }
        ensures at_end { IfOk result (λ event. MatchOption event
            ((self.new.unread ≡ []) × IsAtEnd (R.remaining self.new.reader))
            (λ _. ⊤)) }
        ensures held_up { IfErr result (λ fault. IsHeldUp fault
            (held_by R.remaining self.old) (held_by R.remaining self.new)) }
        ensures at_hand { is_at_hand (held_by R.remaining self.old) ≡ true → self.new.reader
            ≡ self.old.reader }
    {
        let mut is_last = false;
        for turn in 0..u64::MAX {
            let _steps = turn;
            match self.scan(is_last) {
                Some(found) => {
                    if let Some(event) = self.take(found)? {
                        return Ok(Some(event));
                    }
                }
                None if is_last => return Ok(None),
                None => is_last = !self.read()?,
            }
        }
        Err(TerminalFault::Device)
    }

    /// Returns the token at the front, if it does not depend on bytes that are not read yet.
    fn front(&self) -> Option<Scanned>
        ensures { result ≡ next_token false (held_by R.remaining self.now) }
    {
        if self.escape.waits(self.was_full) && self.unread.is_lone_escape() {
            return None;
        }
        self.unread.front()
    }

    /// Returns the token at the front, or `None` if more bytes are wanted.
    fn scan(&mut self, is_last: bool) -> Option<Scanned>
        ensures token { result ≡ next_token is_last (held_by R.remaining self.old) }
        ensures within { IfSome result (λ s. s.used ≤ length self.old.unread) }
        ensures held { held_by R.remaining self.new ≡ held_by R.remaining self.old }
        ensures reader { self.new.reader ≡ self.old.reader }
        ensures told { self.new.told ≡ self.old.told }
    {
        if self.escape.waits(self.was_full) && self.unread.is_lone_escape() && !is_last {
            return None;
        }
        self.unread.scan(is_last)
    }

    /// Reads what there is, and waits if there is nothing. Returns false at the end. A refusal loses no byte.
    fn read(&mut self) -> Result<bool, TerminalFault>
        ensures ok { OnOk result ((more : List ℕ) × (self.new.unread ≡ self.old.unread ++ more)
            × (self.new.was_full ≡ (length more == piece))
            × Consumes (R.remaining self.old.reader) (R.remaining self.new.reader) more) }
        ensures end { IfOk result (λ is_more. is_more ≡ false
            → IsAtEnd (R.remaining self.new.reader)) }
        ensures err { OnErr result ((self.new.unread ≡ self.old.unread)
            × (self.new.was_full ≡ self.old.was_full)
            × Keeps (R.remaining self.old.reader) (R.remaining self.new.reader)) }
        ensures choices { (self.new.escape ≡ self.old.escape)
            × (self.new.pasted ≡ self.old.pasted) }
        ensures told { self.new.told ≡ self.old.told }
    {
        let count = self.unread.read_from(&mut self.reader)?;
        self.was_full = count == PIECE;
        Ok(count > 0)
    }

    /// Takes a token and returns its event, or `None` if its bytes mean nothing. A refusal takes no byte, so that the
    /// next call finds the token again.
    fn take(&mut self, found: Scanned) -> Result<Option<InputEvent>, TerminalFault>
        requires { found.used ≤ length self.old.unread }
        ensures told { self.new.told ≡ self.old.told }
        ensures event { IfOk result (λ event. events_in_option event
            ≡ token_events self.old.pasted found.token self.old.unread) }
        ensures taken { OnOk result (self.new.unread ≡ drop found.used self.old.unread) }
        ensures kept { OnErr result (self.new.unread ≡ self.old.unread) }
        ensures refused { IfErr result (λ fault. (fault ≡ Memory) × IsPasted found.token) }
        ensures rest { (self.new.reader ≡ self.old.reader) × (self.new.escape ≡ self.old.escape)
            × (self.new.was_full ≡ self.old.was_full) × (self.new.pasted ≡ self.old.pasted) }
    {
        let Scanned { token, used } = found;
        let event = match token {
            Token::Key(key) => Some(InputEvent::Key(key)),
            Token::Size { cols, rows } => Some(InputEvent::Resized { cols, rows }),
            Token::Paste { from, len } => {
                let bytes = self.unread.bytes();
                let end = from.saturating_add(len).min(bytes.len());
                Some(InputEvent::Paste(pasted_text(
                    self.alloc,
                    &bytes[from.min(end)..end],
                    self.pasted,
                )?))
            }
            Token::Unknown => None,
        };
        self.unread.take(used);
        Ok(event)
    }
}

impl<R: Read> EventSource for KeyReader<R> {
    ghost told = { λ it. it.told };

    ghost state = { λ it. it.state };

    ghost at_hand = { λ it. is_at_hand (held_by R.remaining it) };

    ghost follows = { λ old new events. TellsTyped (held_by R.remaining old)
        (held_by R.remaining new) events };

    /// Takes bytes at the front and tells what they are, each of them once. There are no more events only if the
    /// reader has no more bytes and all are taken. `err` says why a call fails. The reader is not asked if an event is
    /// at hand.
    fn next_event(&mut self) -> Result<Option<InputEvent>, TerminalFault>
        ensures ok { IfOk result (λ event. MatchOption event
            ((self.new.told ≡ self.old.told) × (self.new.state ≡ AtEnd)
            × (self.new.unread ≡ []) × IsAtEnd (R.remaining self.new.reader))
            (λ event. (self.new.told ≡ self.old.told ++ event_view event ∷ [])
            × (self.new.state ≡ Going))) }
        ensures err { IfErr result (λ fault. (self.new.told ≡ self.old.told)
            × (self.new.state ≡ HasRefused fault)
            × IsHeldUp fault (held_by R.remaining self.old) (held_by R.remaining self.new)) }
        ensures follows { TellsTyped (held_by R.remaining self.old) (held_by R.remaining self.new)
            (answer_events result) }
        ensures at_hand { is_at_hand (held_by R.remaining self.old) ≡ true → self.new.reader
            ≡ self.old.reader }
    {
        let answer = self.find();
        self.told.note(&answer);
        self.state = SourceState::after(&answer);
        answer
    }

    /// Returns true if a key or a pasted text stands whole at the front of what was read. A size does not count, since
    /// not every size is one of a screen.
    fn has_at_hand(&self) -> bool
        ensures { result ≡ is_at_hand (held_by R.remaining self.now) }
    {
        match self.front() {
            Some(found) => matches!(found.token, Token::Key(_) | Token::Paste { .. }),
            None => false,
        }
    }
}
