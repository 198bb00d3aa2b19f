//! What is typed, as events for the prompt.

ghost use Rattle.std.specs.Prelude.{◌≡◌, ◌++◌, ◌||◌, ℕ, List, [], true, false, encode_utf8_all, map, string_bytes, IfSome};
ghost use Rattle.std.specs.List.{list_all};
ghost use Rattle.tw_input.specs.EventView.{event_view};
ghost use Rattle.tw_device.specs.Told.{answer_events};
ghost use Rattle.tw_device.specs.declared.keys.SourceState.TheVariants.{Going};
ghost use Rattle.tw_prompt.specs.Joined.{Moves, Piece, Pieced, is_pending, is_joining, keys_of, pending_events, run_event, told_in_all, key_of_character, wake_if, woken_all};

use crate::joined::{character_in, fitted, key_of_character};
use crate::streams::TerminalInput;
use std::alloc::Global;
use std::io::Read;
use std::time::Clock;
use tw_device::{EventLog, EventSource, KeyReader, Pasted, SourceState};
use tw_input::InputEvent;
use tw_prompt_host::gives_up;
use tw_terminal::TerminalFault;
use tw_typed::{PIECE, Typed};

/// What is held back behind a run of characters.
#[derive(Debug, Drop)]
pub enum Pending {
    /// Nothing.
    Nothing,
    /// An event.
    Event(InputEvent),
    /// A refusal of the source.
    Fault(TerminalFault),
}

/// The events of a source, as a prompt takes them. A size that no screen has is no event. If the owner lets characters
/// join, those that are at hand at once come as one pasted text, for which one edit and one painting do: all but control
/// characters. After Ctrl-G and Ctrl-D comes a Wake, with which the line from before a search comes back.
#[derive(Drop)]
pub struct PromptEvents<S> {
    alloc: Global,
    source: S,
    joins: bool,
    pending: Pending,
    /// True behind a key that gives a search up: a Wake comes next.
    wakes: bool,
    state: SourceState,
    told: EventLog,
}

/// Returns true if a Wake comes after an answer: it is a key that gives a search up.
fn wakes_after(answer: &Result<Option<InputEvent>, TerminalFault>) -> bool
    ensures { woken_all (answer_events answer.now)
        ≡ answer_events answer.now ++ wake_if result }
{
    match answer {
        Ok(Some(event)) => gives_up(event),
        _ => false,
    }
}

/// The events of what is typed at a terminal.
pub type TypedEvents<R, C> = PromptEvents<KeyReader<Typed<R, C>>>;

impl<C: Clock> PromptEvents<KeyReader<Typed<TerminalInput, C>>> {
    /// Creates the events of a terminal, at which characters join.
    pub fn new(alloc: Global, input: TerminalInput, clock: C) -> Self {
        let most = if input.reads_ahead() { PIECE } else { 1 };
        let gathers = input.is_terminal();
        let typed = Typed::new(alloc, input, clock, most, gathers);
        PromptEvents::over(alloc, KeyReader::new(alloc, typed), true)
    }
}

impl<R: Read> PromptEvents<KeyReader<R>> {
    /// Sets the choice for pasted texts.
    pub fn set_pasted(&mut self, pasted: Pasted)
        ensures { self.new
            ≡ record self.old { source = record self.old.source { pasted = pasted } } }
    {
        self.source.set_pasted(pasted);
    }
}

impl<S: EventSource> PromptEvents<S> {
    /// Creates the events of a source that has told none. If `joins` is true, characters at hand at once come as one
    /// pasted text, which is wrong for a host that binds characters.
    pub fn over(alloc: Global, source: S, joins: bool) -> Self
        ensures told { ⟦<PromptEvents<S> as EventSource>⟧.told result ≡ [] }
        ensures going { ⟦<PromptEvents<S> as EventSource>⟧.state result ≡ Going }
        ensures source { result.source ≡ source }
        ensures joins { result.joins ≡ joins }
        ensures held { pending_events result.pending ≡ [] }
        ensures wakes { result.wakes ≡ false }
    {
        PromptEvents {
            alloc,
            source,
            joins,
            pending: Pending::Nothing,
            wakes: false,
            state: SourceState::Going,
            told: EventLog::new(),
        }
    }

    /// Takes what is held back, or else the next event of the source.
    fn next_typed(&mut self) -> Result<Option<InputEvent>, TerminalFault>
        ensures moves { Moves S.told S.follows self.old.source (pending_events self.old.pending)
            self.new.source (pending_events self.new.pending) (answer_events result) }
        ensures empty { pending_events self.new.pending ≡ [] }
        ensures joins { self.new.joins ≡ self.old.joins }
        ensures wakes { self.new.wakes ≡ self.old.wakes }
        ensures told { self.new.told ≡ self.old.told }
    {
        match std::mem::replace(&mut self.pending, Pending::Nothing) {
            Pending::Nothing => self.source.next_event(),
            Pending::Event(event) => Ok(Some(event)),
            Pending::Fault(fault) => Err(fault),
        }
    }

    /// Takes the character that is at hand, if there is one. Another event is held back.
    fn next_character(&mut self) -> Option<char>
        ensures moves { Moves S.told S.follows self.old.source (pending_events self.old.pending)
            self.new.source (pending_events self.new.pending) (keys_of result) }
        ensures text { IfSome result (λ c. (is_joining c ≡ true)
            × (pending_events self.new.pending ≡ [])) }
        ensures joins { self.new.joins ≡ self.old.joins }
        ensures wakes { self.new.wakes ≡ self.old.wakes }
        ensures told { self.new.told ≡ self.old.told }
    {
        if !self.source.has_at_hand() {
            return None;
        }
        match self.next_typed() {
            Ok(Some(event)) => match character_in(&event) {
                Some(c) => Some(c),
                None => {
                    self.pending = Pending::Event(event);
                    None
                }
            },
            Ok(None) => None,
            Err(fault) => {
                self.pending = Pending::Fault(fault);
                None
            }
        }
    }

    /// Appends to a run the characters that are at hand. One for which there is no memory is held back.
    fn gather(&mut self, run: &mut String)
        ensures moves { (more : List ℕ) × (list_all is_joining more ≡ true)
            × (string_bytes run.new ≡ string_bytes run.old ++ encode_utf8_all more)
            × Moves S.told S.follows self.old.source (pending_events self.old.pending)
            self.new.source (pending_events self.new.pending) (map key_of_character more) }
        ensures joins { self.new.joins ≡ self.old.joins }
        ensures wakes { self.new.wakes ≡ self.old.wakes }
        ensures told { self.new.told ≡ self.old.told }
    {
        for turn in 0..u64::MAX {
            let _steps = turn;
            let Some(c) = self.next_character() else {
                break;
            };
            match run.push(c) {
                Ok(()) => {}
                Err(_) => {
                    self.pending = Pending::Event(key_of_character(c));
                    break;
                }
            }
        }
    }

    /// Returns a character, with those that are at hand behind it as one pasted text.
    fn joined(&mut self, first: char) -> InputEvent
        requires { is_joining first ≡ true }
        ensures moves { (more : List ℕ) × (list_all is_joining more ≡ true)
            × (event_view result ≡ run_event first more)
            × Moves S.told S.follows self.old.source (pending_events self.old.pending)
            self.new.source (pending_events self.new.pending) (map key_of_character more) }
        ensures joins { self.new.joins ≡ self.old.joins }
        ensures wakes { self.new.wakes ≡ self.old.wakes }
        ensures told { self.new.told ≡ self.old.told }
    {
        let mut run = String::new(self.alloc);
        if run.push(first).is_err() {
            return key_of_character(first);
        }
        let lone = run.len();
        self.gather(&mut run);
        if run.len() > lone {
            InputEvent::Paste(run)
        } else {
            key_of_character(first)
        }
    }

    /// Returns the next event that is one for the prompt.
    fn find(&mut self) -> Result<Option<InputEvent>, TerminalFault>
        ensures pieces { (pieces : List Piece) × (answer_events result ≡ told_in_all pieces)
            × Pieced S.told S.follows self.old.joins self.old.source
            (pending_events self.old.pending)
            self.new.source (pending_events self.new.pending) pieces }
        ensures joins { self.new.joins ≡ self.old.joins }
        ensures wakes { self.new.wakes ≡ self.old.wakes }
        ensures told { self.new.told ≡ self.old.told }
    {
        for turn in 0..u64::MAX {
            let _steps = turn;
            let Some(event) = self.next_typed()? else {
                return Ok(None);
            };
            match (self.joins, character_in(&event)) {
                (true, Some(c)) => return Ok(Some(self.joined(c))),
                _ => {}
            }
            if let Some(event) = fitted(event) {
                return Ok(Some(event));
            }
        }
        Err(TerminalFault::Device)
    }
}

impl<S: EventSource> EventSource for PromptEvents<S> {
    ghost told = { λ it. it.told };

    ghost state = { λ it. it.state };

    ghost at_hand = { λ it. it.wakes || (is_pending it.pending || S.at_hand it.source) };

    ghost follows = { λ old new events. (pieces : List Piece)
        × (wake_if old.wakes ++ woken_all (told_in_all pieces) ≡ events ++ wake_if new.wakes)
        × Pieced S.told S.follows old.joins old.source (pending_events old.pending) new.source
        (pending_events new.pending) pieces
        × (new.joins ≡ old.joins) };

    fn next_event(&mut self) -> Result<Option<InputEvent>, TerminalFault> {
        if self.wakes {
            let answer = Ok(Some(InputEvent::Wake));
            self.wakes = false;
            self.told.note(&answer);
            self.state = SourceState::Going;
            return answer;
        }
        let answer = self.find();
        self.wakes = wakes_after(&answer);
        self.told.note(&answer);
        self.state = SourceState::after(&answer);
        answer
    }

    fn has_at_hand(&self) -> bool {
        self.wakes || !matches!(self.pending, Pending::Nothing) || self.source.has_at_hand()
    }
}
