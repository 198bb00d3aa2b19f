//! A device that is made of a source of events and a terminal.

ghost use Rattle.std.specs.Prelude.{◌≡◌, ◌≢◌, ◌++◌, ◌∷◌, [], true, false, IfOk, OnOk, OnErr};
ghost use Rattle.tw_surface.specs.ChangeView.{batch_view};
ghost use Rattle.tw_input.specs.EventView.{event_view};
ghost use Rattle.tw_terminal.specs.TerminalState.{size_after, RenderFails, Renders};
ghost use Rattle.tw_terminal.specs.Uses.{Other, Refused as CallRefused, Took as CallTook};
ghost use Rattle.tw_device.specs.Deeds.{deeds_of, IsDone, IsSizedBy};
ghost use Rattle.tw_device.specs.Joined.{Attends, LeadsByCall, Leads, LeadsOn};
ghost use Rattle.tw_device.specs.JoinedLaws.{joins, stays};
ghost use Rattle.tw_device.specs.Steps.{answer_step, is_unsent, terminal_after, Flushed, IsPrompt, Refused, Sent, Took, Waited};

use crate::device::Device;
use crate::device_terminal::DeviceTerminal;
use crate::keys::EventSource;
use crate::step_log::StepLog;
use tw_input::InputEvent;
use tw_surface::Change;
use tw_terminal::{ScreenSize, Terminal, TerminalFault};

/// A device that is made of a source of events and a terminal. A painting is sent at once if no event is at hand, and
/// else it may be kept back until none is, up to a flush. What is done to a part by itself is not noted.
#[derive(Drop)]
pub struct Joined<S, T> {
    pub source: S,
    pub terminal: T,
    log: StepLog,
}

/// Gives the terminal the size that an event tells.
fn resize<T: DeviceTerminal>(terminal: &mut T, event: &InputEvent)
    ensures state { let before = T.state terminal.old in
        T.state terminal.new ≡ record before {
          size = size_after (event_view event.now) before.size;
        } }
    ensures sized { IsSizedBy T.does (event_view event.now) terminal.old terminal.new }
    ensures settled { T.keeps terminal.old ≡ false → T.keeps terminal.new ≡ false }
{
    if let InputEvent::Resized { cols, rows } = event {
        terminal.set_screen_size(ScreenSize {
            rows: *rows,
            cols: *cols,
        });
    }
}

/// Gives the terminal the size that an answer tells.
#[tactic(auto, using(crate::proofs::JoinedLemmas::sized_done))]
fn follow<T: DeviceTerminal>(terminal: &mut T, answer: &Result<Option<InputEvent>, TerminalFault>)
    ensures state { T.state terminal.new
        ≡ terminal_after (answer_step answer.now) (T.state terminal.old) }
    ensures done { IsDone T.does (deeds_of (answer_step answer.now ∷ [])) terminal.old terminal.new }
    ensures settled { T.keeps terminal.old ≡ false → T.keeps terminal.new ≡ false }
{
    if let Ok(Some(event)) = answer {
        resize(terminal, event);
    }
}

impl<S: EventSource, T: DeviceTerminal> Joined<S, T> {
    /// Joins a source and a terminal.
    pub fn new(source: S, terminal: T) -> Self
        ensures parts { (result.source ≡ source) × (result.terminal ≡ terminal) }
        ensures log { result.log ≡ [] }
    {
        Joined {
            source,
            terminal,
            log: StepLog::new(),
        }
    }

    /// Takes a batch, which the terminal keeps back only if it may.
    fn take(&mut self, changes: &[Change], may_keep: bool) -> Result<(), TerminalFault>
        ensures ok { OnOk result (Leads S.told S.follows T.state T.keeps T.does (Took (batch_view changes.now) ∷ [])
            self.old self.new) }
        ensures renders { OnOk result (Renders (batch_view changes.now) (T.state self.old.terminal)
            (T.state self.new.terminal)) }
        ensures settled { OnOk result (may_keep ≡ false → T.keeps self.new.terminal ≡ false) }
        ensures err { OnErr result (Leads S.told S.follows T.state T.keeps T.does (Refused ∷ []) self.old self.new) }
        ensures fails { OnErr result (RenderFails (batch_view changes.now) (T.state self.old.terminal)
            (T.state self.new.terminal)) }
        ensures untaken { OnErr result ((T.state self.new.terminal).batches
            ≡ (T.state self.old.terminal).batches) }
    {
        self.terminal.set_more_at_hand(may_keep);
        match self.terminal.render(changes) {
            Ok(()) => {
                self.log.note_taken(changes);
                Ok(())
            }
            Err(fault) => {
                self.log.note_refused();
                Err(fault)
            }
        }
    }

    /// Notes that all is sent.
    fn note_sent(&mut self)
        requires { T.keeps self.old.terminal ≡ false }
        ensures leads { Leads S.told S.follows T.state T.keeps T.does (Sent ∷ []) self.old self.new }
        ensures kept { (self.new.source ≡ self.old.source) × (self.new.terminal ≡ self.old.terminal) }
    {
        self.log.note_sent();
    }

    /// Notes that the source is asked, which may wait.
    fn note_waited(&mut self)
        requires settled { T.keeps self.old.terminal ≡ false }
        requires sent { is_unsent self.old.log ≡ false }
        ensures leads { Leads S.told S.follows T.state T.keeps T.does (Waited ∷ []) self.old self.new }
        ensures kept { (self.new.source ≡ self.old.source) × (self.new.terminal ≡ self.old.terminal) }
    {
        self.log.note_waited();
    }

    /// Sends what is kept back.
    fn settle(&mut self) -> Result<(), TerminalFault>
        ensures ok { OnOk result (Leads S.told S.follows T.state T.keeps T.does (Sent ∷ []) self.old self.new) }
        ensures err { OnErr result (Leads S.told S.follows T.state T.keeps T.does (Refused ∷ []) self.old self.new) }
        ensures state { T.state self.new.terminal ≡ T.state self.old.terminal }
        ensures settled { T.keeps self.new.terminal ≡ false }
        ensures sent { OnOk result (is_unsent self.new.log ≡ false) }
    {
        match self.terminal.settle() {
            Ok(()) => {
                self.log.note_sent();
                Ok(())
            }
            Err(fault) => {
                self.log.note_refused();
                Err(fault)
            }
        }
    }

    /// Asks the source, and sets the size that its event tells.
    fn ask(&mut self) -> Result<Option<InputEvent>, TerminalFault>
        ensures leads { Leads S.told S.follows T.state T.keeps T.does (answer_step result ∷ [])
            self.old self.new }
        ensures state { T.state self.new.terminal
            ≡ terminal_after (answer_step result) (T.state self.old.terminal) }
    {
        let answer = self.source.next_event();
        self.log.note_answer(&answer);
        follow(&mut self.terminal, &answer);
        answer
    }

    /// Sends what is kept back, unless an event is at hand, and notes that the source may wait then.
    fn attend(&mut self) -> Result<(), TerminalFault>
        ensures { Attends S.told S.follows T.state T.keeps T.does self.old self.new }
    {
        if !self.source.has_at_hand() {
            self.settle()?;
            self.note_waited();
        }
        Ok(())
    }
}

impl<S: EventSource, T: DeviceTerminal> Terminal for Joined<S, T> {
    ghost state = { λ it. T.state it.terminal };

    ghost follows = { λ old new call. LeadsByCall S.told S.follows T.state T.keeps T.does call old new };

    /// Returns the size of the terminal.
    fn get_screen_size(&mut self) -> Result<ScreenSize, TerminalFault> {
        self.terminal.get_screen_size()
    }

    /// Returns `None`: what is typed comes by `next_event`.
    fn poll_input(&mut self) -> Result<Option<InputEvent>, TerminalFault> {
        self.terminal.poll_input()
    }

    /// Takes the batch, which the terminal may keep back if an event is at hand. Else it is sent, with what was kept
    /// back.
    fn render(&mut self, changes: &[Change]) -> Result<(), TerminalFault> {
        let may_keep = self.source.has_at_hand();
        self.take(changes, may_keep)?;
        if !may_keep {
            self.note_sent();
        }
        Ok(())
    }

    /// Sends what is kept back, and flushes.
    fn flush(&mut self) -> Result<(), TerminalFault> {
        match self.terminal.flush() {
            Ok(()) => {
                self.log.note_flushed();
                Ok(())
            }
            Err(fault) => {
                self.log.note_refused();
                Err(fault)
            }
        }
    }
}

impl<S: EventSource, T: DeviceTerminal> Device for Joined<S, T> {
    ghost log = { λ it. it.log };

    ghost law = { LeadsOn S.told S.follows T.state T.keeps T.does };

    fn next_event(&mut self) -> Result<Option<InputEvent>, TerminalFault> {
        if let Err(fault) = self.attend() {
            self.log.note_answer(&Err(fault));
            return Err(fault);
        }
        self.ask()
    }

    ghost no_event = { λ it. T.no_event it.terminal };

    ghost call_notes = { λ old new call follows. record {
      steps = follows.steps;
      calls = follows.calls;
      log = follows.leads.log;
      batches = follows.batches;
      prompt = follows.leads.prompt;
    } };

    ghost call_law = { λ old new call follows. (follows.steps, follows.leads) };

    ghost law_stays = { stays S.told S.follows T.state T.keeps T.does };

    ghost law_joins = { joins S.told S.follows T.state T.keeps T.does };
}
